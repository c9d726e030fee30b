// Whether bytes are a feature list, or a setting of one.
ghost use Rattle.theory.specs.Settings.{FeatureList, Valid};
ghost use Rattle.settings.specs.Tells.{Tells};

// Whether the sizes are a feature list: 1 to 16 of them, each from 2 to 8.
pub fn features_ok(features: &[u8]) -> bool
    ensures { Tells result (FeatureList features.now) }
{
    if features.len() < 1 || 16 < features.len() {
        return false;
    }
    features.iter().all(|size| 2 <= *size && *size <= 8)
}

// Whether the values are a setting of the features: one value below its size for each.
pub fn setting_ok(features: &[u8], values: &[u8]) -> bool
    ensures { Tells result (Valid features.now values.now) }
{
    if values.len() != features.len() {
        return false;
    }
    features
        .iter()
        .zip(values)
        .all(|(size, value)| *value < *size)
}
