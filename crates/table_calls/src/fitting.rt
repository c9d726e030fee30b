// Whether bytes are a setting of a table's features.
ghost use Rattle.std.specs.Prelude.{◌≤◌, length};
ghost use Rattle.theory.specs.Settings.{Valid};
ghost use Rattle.settings.specs.Tells.{Tells};
ghost use Rattle.promises.specs.Words.{features, sizes};

use table_words::{features_word, size_word};

// Whether the bytes are a setting of the table's features.
pub fn setting_fits(t: &[u32], setting: &[u8]) -> bool
    requires { (64 ≤ length t.now) × (features t.now ≤ 16) }
    ensures { Tells result (Valid (sizes t.now) setting.now) }
{
    if setting.len() != features_word(t) as usize {
        return false;
    }
    for (k, value) in setting.iter().enumerate() {
        if size_word(t, k) <= u32::from(*value) {
            return false;
        }
    }
    true
}
