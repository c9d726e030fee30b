// The nodes stand as the walk from the roots finishes them: the walk keeps only how many nodes are done.
// It stands beside the walk of table_checks, which reads words and asks other facts of them.
// It takes the bytes by reference: by value each call of itself would copy their four words to the stack, and the walk has 48 bytes of code more.
ghost use Rattle.std.specs.Prelude.{◌<◌};
ghost use Rattle.settings.specs.Tells.{Tells};
ghost use Rattle.sheet_check.specs.Diagram.{Visits, VisitsAll, VisitsRoots, InTurn};
ghost use Rattle.promises.specs.Sheet.{sheet_count as count, SheetSits as Below};

use crate::nodes::Lawful;
use sheet_bytes::NUMBERS;

// The walk from the branch word w, the nodes below c done: how many are done after it, or none where a node is not met in its turn.
#[cycle(visit_visit_list)]
fn visit(lawful: &Lawful, w: usize, c: usize) -> Option<usize>
    requires { (Below lawful.now.laid.bytes.now (count lawful.now.laid.bytes.now) 0 w) × (c < 65536) }
    ensures { Visits lawful.now.laid.bytes.now w c result }
{
    if w < NUMBERS || w - NUMBERS < c {
        return Some(c);
    }
    let i = w - NUMBERS;
    if visit_list(lawful, i, c)? == i {
        Some(i + 1)
    } else {
        None
    }
}

// The same over the branches of node i in turn. A lost walk stops at once, so each node's branches are walked once.
#[cycle(visit_visit_list)]
fn visit_list(lawful: &Lawful, i: usize, c: usize) -> Option<usize>
    requires { (i < count lawful.now.laid.bytes.now) × (c < 65536) }
    ensures { VisitsAll lawful.now.laid.bytes.now i c result }
{
    let mut d = c;
    for v in 0..lawful.laid.width(i) {
        d = visit(lawful, lawful.laid.branch(i, v), d)?;
    }
    Some(d)
}

// The same over the roots in turn.
fn visit_roots(lawful: &Lawful) -> Option<usize>
    ensures { VisitsRoots lawful.now.laid.bytes.now result }
{
    let mut d: usize = 0;
    for r in 0..lawful.laid.roots {
        d = visit(lawful, lawful.laid.root(r), d)?;
    }
    Some(d)
}

// Whether the walk from the roots in turn meets all nodes, each in its turn.
pub fn in_order(lawful: &Lawful) -> bool
    ensures { Tells result (InTurn lawful.now.laid.bytes.now) }
{
    visit_roots(lawful) == Some(lawful.laid.count())
}
