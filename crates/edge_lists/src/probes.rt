ghost use Rattle.std.specs.Prelude.{◌≡◌, true, false, Contains};
ghost use Rattle.edge_lists.specs.Types.{Out};
ghost use Rattle.edge_lists.specs.Edges.{Ascend};
ghost use Rattle.edge_lists.specs.Probes.{LiesBefore, IsLater, IsFurther};

use crate::records::EdgeRecord;
use crate::sides::Side;
use lore_base::Edge;
use slab::Slab;

// So many records of a list are walked before later ones are looked for elsewhere in the slab.
const LONG: usize = 64;

// Where the walk stays long, so many records spread over the slab are looked at.
const MANY: usize = 1024;

// Records of one list often stand a few keys apart: so many keys are looked at.
const AROUND: usize = 16;

/// Keys that are looked at.
#[derive(Clone, Copy)]
struct Probes {
    first: usize,
    stride: usize,
    count: usize,
}

// Where a walk to the place of an edge goes on after so many records, the last of them at the key:
// there, or at a later one before the edge in the same list. None of the edges that come is taken
// for a record of the list, since those may wait.
pub(crate) fn further(
    records: &Slab<EdgeRecord>,
    side: Side,
    edge: &Edge,
    come: &[Edge],
    key: usize,
    walked: usize,
) -> usize
    requires order { Ascend Out come.now }
    ensures { IsFurther side records.now edge.now come.now key result }
{
    if walked == LONG {
        return climbed(records, side, edge, come, key);
    }
    if is_longer(walked) {
        return spread(records, side, edge, come, key, walked);
    }
    key
}

// Whether the walk is so long that records all over the slab are looked at: again from time to time.
fn is_longer(walked: usize) -> bool {
    walked == 2 * LONG || walked == 8 * LONG || walked == 32 * LONG
}

// Goes on from the last of some records spread over the slab, from a first key on. That leads so much
// closer to the edge as they are many, in whatever order keys lie.
fn spread(
    records: &Slab<EdgeRecord>,
    side: Side,
    edge: &Edge,
    come: &[Edge],
    key: usize,
    first: usize,
) -> usize
    requires order { Ascend Out come.now }
    ensures { IsFurther side records.now edge.now come.now key result }
{
    let probes = Probes {
        first,
        stride: records.capacity() / MANY + 1,
        count: MANY,
    };
    let best = probed(records, side, edge, come, key, probes);
    climbed(records, side, edge, come, best)
}

// Goes on by ever smaller strides. That leads close to the edge where keys ascend along the list, as
// they do after a load.
fn climbed(records: &Slab<EdgeRecord>, side: Side, edge: &Edge, come: &[Edge], key: usize) -> usize
    requires order { Ascend Out come.now }
    ensures { IsFurther side records.now edge.now come.now key result }
{
    let mut best = key;
    let mut stride = records.capacity();
    'strides: for _ in 0..64 {
        stride /= 2;
        if stride == 0 {
            return best;
        }
        let probes = Probes {
            first: best.saturating_add(stride),
            stride: 1,
            count: AROUND,
        };
        let later = probed(records, side, edge, come, best, probes);
        best = later;
    }
    best
}

// The last of the records at these keys that stand before the edge in its list.
fn probed(
    records: &Slab<EdgeRecord>,
    side: Side,
    edge: &Edge,
    come: &[Edge],
    key: usize,
    probes: Probes,
) -> usize
    requires order { Ascend Out come.now }
    ensures { IsFurther side records.now edge.now come.now key result }
{
    let mut best = key;
    let mut next = probes.first;
    'probes: for _ in 0..probes.count {
        let later = later_of(records, side, edge, come, best, next);
        best = later;
        next = next.saturating_add(probes.stride);
    }
    best
}

// The second key where its record leads further, and else the first.
fn later_of(
    records: &Slab<EdgeRecord>,
    side: Side,
    edge: &Edge,
    come: &[Edge],
    here: usize,
    there: usize,
) -> usize
    requires order { Ascend Out come.now }
    ensures { IsFurther side records.now edge.now come.now here result }
{
    if leads(records, side, edge, come, here, there) {
        there
    } else {
        here
    }
}

// Whether the record of the second key stands before the edge in the same list, behind that of the
// first, and doesn't wait.
fn leads(
    records: &Slab<EdgeRecord>,
    side: Side,
    edge: &Edge,
    come: &[Edge],
    here: usize,
    there: usize,
) -> bool
    requires order { Ascend Out come.now }
    ensures { result ≡ true → IsLater side records.now edge.now come.now here there }
{
    let Some(found) = records.get(there) else {
        return false;
    };
    if !side.precedes(&found.edge, edge) {
        return false;
    }
    if !lies_before(records, side, here, &found.edge) {
        return false;
    }
    if is_among(come, &found.edge) {
        return false;
    }
    true
}

// Whether the record at the key stands before the edge in the same list.
pub(crate) fn lies_before(records: &Slab<EdgeRecord>, side: Side, key: usize, edge: &Edge) -> bool
    ensures { result ≡ true → LiesBefore side records.now key edge.now }
{
    match records.get(key) {
        Some(record) => side.precedes(&record.edge, edge),
        None => false,
    }
}

// Whether the edge is one of the ascending ones, found by binary search.
fn is_among(edges: &[Edge], edge: &Edge) -> bool
    requires { Ascend Out edges.now }
    ensures { result ≡ false → ¬ Contains edges.now edge.now }
{
    match edges.binary_search(edge) {
        Ok(_) => true,
        Err(_) => false,
    }
}
