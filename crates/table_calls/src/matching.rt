// Whether two tables, of whatever kinds, are over one feature list.
ghost use Rattle.std.specs.Prelude.{◌≡◌, ◌≤◌, length};
ghost use Rattle.settings.specs.Tells.{Tells};
ghost use Rattle.promises.specs.Words.{features, sizes};

use table_words::{features_word, size_word};

// Whether the feature lists of two tables are equal.
pub fn same_features(t: &[u32], u: &[u32]) -> bool
    requires { (64 ≤ length t.now) × (64 ≤ length u.now) × (features t.now ≤ 16) }
    ensures { Tells result (sizes t.now ≡ sizes u.now) }
{
    let n = features_word(t) as usize;
    if features_word(u) as usize != n {
        return false;
    }
    for k in 0..n {
        if size_word(t, k) != size_word(u, k) {
            return false;
        }
    }
    true
}
