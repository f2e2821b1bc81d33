ghost use Rattle.std.specs.Prelude.{◌≡◌, ◌≤◌, ◌<◌, slice_index_or, ℕ, List, [], ◌∷◌, All, IfSome, length, vec_capacity};
ghost use Rattle.slab.specs.Slab.{Slab as TheSlab};
ghost use Rattle.slab.specs.Slab.{HasRoomFor};
ghost use Rattle.edge_lists.specs.Types.{Edge as TheEdge, EdgeRecord as TheRecord};
ghost use Rattle.edge_lists.specs.Types.{Out, In};
ghost use Rattle.edge_lists.specs.Edges.{Ascend};
ghost use Rattle.edge_lists.specs.Records.{LiesAt, HasEdge};
ghost use Rattle.edge_lists.specs.Objects.{AreAscendingObjects, IsLive};
ghost use Rattle.edge_lists.specs.Chains.{StandsAt, AreChained, IsStart};
ghost use Rattle.edge_lists.specs.Commits.{ArePut, ArePlaces, AreEntered, AreTaken, AreChanged};

use crate::changes::{put_in, put_out, take_out};
use crate::objects::ObjectRecord;
use crate::records::EdgeRecord;
use crate::sides::Side;
use crate::walks::record_of;
use lore_base::Edge;
use slab::Slab;

// A record that was put last, and its edge, so that the record isn't read for it.
#[derive(Clone, Copy)]
struct Last {
    key: usize,
    edge: Edge,
}

// Where to look for the place of an edge from: the record that was put last, if its edge stands
// before this one in the same list, and else the head.
fn start_behind(side: Side, edge: &Edge, last: Option<Last>) -> Option<usize>
    ensures { (records : TheSlab TheRecord) (waiting : List ℕ)
        → IfSome last (λ one. StandsAt records waiting one.key one.edge)
        → IsStart side records waiting edge.now result }
{
    let Some(one) = last else {
        return None;
    };
    if side.precedes(&one.edge, edge) {
        Some(one.key)
    } else {
        None
    }
}

// Puts new edges, which ascend, into the out lists of their parents, and tells the keys of their
// records. Takes no memory.
fn put_all(
    objects: &mut [ObjectRecord],
    records: &mut Slab<EdgeRecord>,
    come: &[Edge],
    keys: &mut Vec<usize>,
)
    requires room { HasRoomFor records.old (length come.now) }
    requires keys { keys.old.items ≡ [] }
    requires key_room { length come.now ≤ vec_capacity keys.old }
    requires ascend { AreAscendingObjects objects.old }
    requires live { All (λ edge. IsLive objects.old edge.parent) come.now }
    requires new { All (λ edge. ¬ HasEdge records.old edge) come.now }
    requires order { Ascend Out come.now }
    requires chained { AreChained Out objects.old records.old [] }
    ensures { ArePut come.now objects.old records.old objects.new records.new keys.new.items }
{
    let mut last = None;
    'come: for edge in come {
        let start = start_behind(Side::Out, edge, last);
        let key = put_out(objects, records, edge, start);
        keys.push_reserved(key);
        last = Some(Last { key, edge: *edge });
    }
}

// Puts the records that wait into the in lists of their children, in the order of these places,
// which is quick where it is that of child, label and parent. Takes no memory.
fn join_all(
    objects: &mut [ObjectRecord],
    records: &mut Slab<EdgeRecord>,
    come: &[Edge],
    keys: &[usize],
    by_child: &[usize],
)
    requires ascend { AreAscendingObjects objects.old }
    requires live { All (λ edge. IsLive objects.old edge.child) come.now }
    requires order { Ascend Out come.now }
    requires count { length keys.now ≡ length come.now }
    requires lie { (k : ℕ) (d : TheEdge) → k < length keys.now
        → LiesAt records.old (slice_index_or keys.now k 0) (slice_index_or come.now k d) }
    requires places { ArePlaces (length come.now) by_child.now }
    requires out { AreChained Out objects.old records.old [] }
    requires entering { AreChained In objects.old records.old keys.now }
    ensures { AreEntered objects.old records.old objects.new records.new [] }
{
    let mut last = None;
    'by_child: for place in by_child {
        let key = keys[*place];
        let edge = &come[*place];
        let start = start_behind(Side::In, edge, last);
        put_in(objects, records, key, edge, start, come);
        last = Some(Last { key, edge: *edge });
    }
}

// Takes the record of an edge from its lists, where it is there. Takes no memory.
fn take_edge(
    objects: &mut [ObjectRecord],
    records: &mut Slab<EdgeRecord>,
    edge: &Edge,
    likely: Option<usize>,
)
    requires ascend { AreAscendingObjects objects.old }
    requires out { AreChained Out objects.old records.old [] }
    requires entering { AreChained In objects.old records.old [] }
    ensures { AreTaken (edge.now ∷ []) objects.old records.old objects.new records.new }
{
    if let Some(key) = record_of(objects, records, edge, likely, None) {
        take_out(objects, records, key, edge);
    }
}

// Takes the records of edges from their lists; where each may lie is told beside them. Takes no
// memory.
fn take_all(
    objects: &mut [ObjectRecord],
    records: &mut Slab<EdgeRecord>,
    gone: &[Edge],
    likely: &[usize],
)
    requires ascend { AreAscendingObjects objects.old }
    requires out { AreChained Out objects.old records.old [] }
    requires entering { AreChained In objects.old records.old [] }
    ensures { AreTaken gone.now objects.old records.old objects.new records.new }
{
    'gone: for (place, edge) in gone.iter().enumerate() {
        take_edge(objects, records, edge, likely.get(place).copied());
    }
}

/// Makes the changes of the edges. Those that come ascend and are new, and their places are told in
/// the order of child, label and parent. Beside those that go stand the keys at which their records
/// may lie. The new ones are linked first; their keys are put into `keys`. Takes no memory.
pub fn commit_edges(
    objects: &mut [ObjectRecord],
    records: &mut Slab<EdgeRecord>,
    come: &[Edge],
    keys: &mut Vec<usize>,
    by_child: &[usize],
    gone: &[Edge],
    likely: &[usize],
)
    requires room { HasRoomFor records.old (length come.now) }
    requires keys { keys.old.items ≡ [] }
    requires key_room { length come.now ≤ vec_capacity keys.old }
    requires ascend { AreAscendingObjects objects.old }
    requires parents { All (λ edge. IsLive objects.old edge.parent) come.now }
    requires children { All (λ edge. IsLive objects.old edge.child) come.now }
    requires new { All (λ edge. ¬ HasEdge records.old edge) come.now }
    requires order { Ascend Out come.now }
    requires places { ArePlaces (length come.now) by_child.now }
    requires out { AreChained Out objects.old records.old [] }
    requires entering { AreChained In objects.old records.old [] }
    ensures { AreChanged come.now gone.now objects.old records.old objects.new records.new }
{
    put_all(objects, records, come, keys);
    join_all(objects, records, come, keys.as_slice(), by_child);
    take_all(objects, records, gone, likely);
}
