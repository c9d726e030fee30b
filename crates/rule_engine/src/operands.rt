// The operands of a joint rule at a feature, and the key that its result is remembered under.
ghost use Rattle.std.specs.Prelude.{◌≡◌, ℕ, ◌+◌, ◌≤◌, ◌<◌, length, get_or};
ghost use Rattle.table_records.specs.Laid.{Laid};
ghost use Rattle.table_notes.specs.Plain.{plain};
ghost use Rattle.rule_operators.specs.Operators.{forgotten_by};
ghost use Rattle.rule_engine.specs.Joint.{Operands, Next, Lowest};
ghost use Rattle.rule_engine.specs.Memory.{Keyed};
ghost use Rattle.promises.specs.Words.{features, size, count};

use rule_notes::{child_in, top_in};
use rule_operators::Operator;
use table_words::features_word;

// The lowest feature that an operand tests; the number of features, where all are phrases.
pub fn lowest(t: &[u32], ops: &[u32]) -> usize
    requires { (Laid (plain t.now)) × ((j : ℕ) → j < length ops.now → get_or ops.now j 0 < 65536 + count (plain t.now)) }
    ensures { Lowest (plain t.now) (length ops.now) ops.now result }
{
    let mut m = features_word(t) as usize;
    for op in ops {
        m = m.min(top_in(t, *op));
    }
    m
}

// Lays the operands' branches for value v of feature k into next: of the forgotten feature, each operand's is that of its own value.
pub fn operands_at(
    t: &[u32],
    operator: &Operator,
    k: usize,
    ops: &[u32],
    v: usize,
    next: &mut [u32],
)
    requires { (Operands (plain t.now) (forgotten_by operator.now) (length ops.now) k ops.now) × (k < features (plain t.now)) × (v < size (plain t.now) k)
        × (length next.old ≡ length ops.now) }
    ensures { (Next (plain t.now) (forgotten_by operator.now) (length ops.now) k v ops.now next.new) × (length next.new ≡ length ops.now) }
{
    let forgets = operator.forgets(k);
    for (j, op) in ops.iter().enumerate() {
        next[j] = child_in(t, k, *op, if forgets { j } else { v });
    }
}

// Lays the key of the operands from feature k on. Two are laid outside the loop, since apply has no more.
pub fn key_of(k: usize, ops: &[u32], key: &mut [u32])
    requires { (2 ≤ length ops.now) × (length ops.now ≤ 9) × (k < 16) × (length key.old ≡ length ops.now + 1) }
    ensures { Keyed (length ops.now) k ops.now key.new }
{
    key[0] = k as u32 + 1;
    key[1] = ops[0];
    key[2] = ops[1];
    for j in 2..ops.len() {
        key[1 + j] = ops[j];
    }
}
