// The sections of a sheet, each after the other: the edition and the sizes, the nodes and the root.
ghost use Rattle.std.specs.Prelude.{◌≡◌, [], ◌∷◌, ◌++◌, ◌+◌, ◌*◌, ◌≤◌, ◌<◌, length};
ghost use Rattle.sheet_bytes.specs.Sections.{section, branches_bytes, node_bytes, nodes_bytes};
ghost use Rattle.sheet_bytes.specs.Sheet.{branch_bytes};
ghost use Rattle.sheet_laying.specs.Laid.{Puts};
ghost use Rattle.rule_numbering.specs.Walkable.{Walkable, Stands};
ghost use Rattle.rule_numbering.specs.Numbering.{renumbered, node_in, numbered, Noted};
ghost use Rattle.promises.specs.Words.{features, count, sizes};
ghost use Rattle.promises.specs.RuleWords.{decode};

use rule_numbering::{Notes, width};
use sheet_laying::Cursor;
use table_words::{features_word, record_word, size_word};

// The table and the notes are no struct that keeps their facts: Walkable and Noted hold by cases (Under, Has), so that a ghost field has them
// truncated alone, and each proof would open them again, as it now takes them from its `requires`.

// How many bytes the sheet has whose nodes have these numbers.
pub fn sheet_length(t: &[u32], notes: &Notes) -> usize
    requires { (Walkable t.now) × (Noted t.now notes.now notes.now.count) }
    ensures { result ≡ 12 + features t.now + length (nodes_bytes branch_bytes (numbered t.now notes.now notes.now.count)) }
{
    let mut n = 12 + features_word(t) as usize;
    for j in 0..notes.count() {
        n += 1 + 3 * width(t, notes.node_of(j));
    }
    n
}

// Writes the sizes.
fn put_sizes(t: &[u32], cursor: &mut Cursor)
    requires { (Walkable t.now) × (cursor.old.at + features t.now ≤ length cursor.old.out.now) }
    ensures { Puts (sizes t.now) cursor.old cursor.new }
{
    for k in 0..features_word(t) as usize {
        cursor.put_byte(size_word(t, k));
    }
}

// Writes the sections of the edition and of the sizes.
pub fn put_front(t: &[u32], cursor: &mut Cursor)
    requires { (Walkable t.now) × (cursor.old.at + 5 + features t.now ≤ length cursor.old.out.now) }
    ensures { Puts (section 1 (1 ∷ []) ++ section (length (sizes t.now)) (sizes t.now)) cursor.old cursor.new }
{
    cursor.put_two(1);
    cursor.put_byte(1);
    cursor.put_two(features_word(t));
    put_sizes(t, cursor);
}

// Writes node i.
fn put_node(t: &[u32], notes: &Notes, i: usize, cursor: &mut Cursor)
    requires { (Walkable t.now) × (Noted t.now notes.now notes.now.count) × (i < count t.now)
        × (cursor.old.at + length (node_bytes branch_bytes (node_in t.now notes.now i)) ≤ length cursor.old.out.now) }
    ensures { Puts (node_bytes branch_bytes (node_in t.now notes.now i)) cursor.old cursor.new }
{
    cursor.put_byte(record_word(t, i, 0));
    for v in 0..width(t, i) {
        cursor.put_branch(notes.renumber(record_word(t, i, 1 + v)));
    }
}

// Writes the nodes that have numbers, in the order of the numbers.
fn put_nodes(t: &[u32], notes: &Notes, cursor: &mut Cursor)
    requires { (Walkable t.now) × (Noted t.now notes.now notes.now.count)
        × (cursor.old.at + length (nodes_bytes branch_bytes (numbered t.now notes.now notes.now.count)) ≤ length cursor.old.out.now) }
    ensures { Puts (nodes_bytes branch_bytes (numbered t.now notes.now notes.now.count)) cursor.old cursor.new }
{
    for j in 0..notes.count() {
        put_node(t, notes, notes.node_of(j), cursor);
    }
}

// Writes the sections of the nodes and of the root.
pub fn put_back(t: &[u32], notes: &Notes, b: u32, cursor: &mut Cursor)
    requires { (Walkable t.now) × (Noted t.now notes.now notes.now.count) × (Stands t.now b)
        × (cursor.old.at + 7 + length (nodes_bytes branch_bytes (numbered t.now notes.now notes.now.count)) ≤ length cursor.old.out.now) }
    ensures { Puts (section (length (numbered t.now notes.now notes.now.count))
        (nodes_bytes branch_bytes (numbered t.now notes.now notes.now.count)) ++ section 1
        (branches_bytes branch_bytes (decode (renumbered notes.now b) ∷ []))) cursor.old cursor.new }
{
    cursor.put_two(notes.count() as u32);
    put_nodes(t, notes, cursor);
    cursor.put_two(1);
    cursor.put_branch(notes.renumber(b));
}
