// No node is idle, and no two are equal: each is searched for among the earlier nodes of its hash. Linear in the bytes, if the hash spreads the nodes.
ghost use Rattle.std.specs.Prelude.{◌≡◌, ◌<◌};
ghost use Rattle.settings.specs.Tells.{Tells};
ghost use Rattle.sheet_check.specs.Chains.{hash, Chained};
ghost use Rattle.sheet_check.specs.Diagram.{Reduced};
ghost use Rattle.promises.specs.Sheet.{sheet_count as count, SheetAlike as Alike, SheetSame as Same, SheetAlone as New};

use sheet_bytes::Laid;

// Whether the branches of node i are all equal.
fn alike(laid: Laid, i: usize) -> bool
    requires { i < count laid.bytes.now }
    ensures { Tells result (Alike laid.entry.bytes.now i) }
{
    let z = laid.width(i);
    let first = laid.branch(i, 0);
    (0..z).all(|v| laid.branch(i, v) == first)
}

// Whether nodes i and j are equal.
fn same(laid: Laid, i: usize, j: usize) -> bool
    requires { (i < count laid.bytes.now) × (j < count laid.bytes.now) }
    ensures { Tells result (Same laid.entry.bytes.now i j) }
{
    laid.feature(i) == laid.feature(j)
        && (0..laid.width(i)).all(|v| laid.branch(i, v) == laid.branch(j, v))
}

// The hash of node i.
fn hash_of(laid: Laid, i: usize) -> usize
    requires { i < count laid.bytes.now }
    ensures { (result ≡ hash laid.entry.bytes.now i) × (result < 4096) }
{
    let mut h = laid.feature(i);
    for v in 0..laid.width(i) {
        h = (h * 2654435761 + laid.branch(i, v)) % 4294967296;
    }
    h / 1048576
}

// Whether no earlier node is equal to node i of hash h. The chains are words as the tables' are, 0 or a node's index and 1: an array of
// Option<u32> would take twice the 32,768 bytes of stack (fixed memory), and the loop follows a chain.
fn fresh(laid: Laid, heads: &[u32; 4096], links: &[u32; 4096], i: usize, h: usize) -> bool
    requires { (i < count laid.bytes.now) × (Chained laid.bytes.now heads.now links.now i) × (h ≡ hash laid.bytes.now i) × (h < 4096) }
    ensures { Tells result (New laid.entry.bytes.now i) }
{
    let mut c = heads[h] as usize;
    while 0 < c {
        let j = c - 1;
        if same(laid, j, i) {
            return false;
        }
        c = links[j] as usize;
    }
    true
}

// Whether no node is idle and no two are equal, in one pass.
pub fn reduced(laid: Laid) -> bool
    ensures { Tells result (Reduced laid.entry.bytes.now) }
{
    let mut heads = [0u32; 4096];
    let mut links = [0u32; 4096];
    for i in 0..laid.count() {
        if alike(laid, i) {
            return false;
        }
        let h = hash_of(laid, i);
        if !fresh(laid, &heads, &links, i, h) {
            return false;
        }
        links[i] = heads[h];
        heads[h] = i as u32 + 1;
    }
    true
}
