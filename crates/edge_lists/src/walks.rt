ghost use Rattle.std.specs.Prelude.{◌≡◌, ◌↔◌, ℕ, List, [], IsTrue, IfSome, IfNone, Some, Contains, is_some, true};
ghost use Rattle.edge_lists.specs.Objects.{AreAscendingObjects};
ghost use Rattle.edge_lists.specs.Edges.{owner_of, Ascend};
ghost use Rattle.edge_lists.specs.Chains.{next_of, AreChained, IsStart, IsPlace, IsPast, WaitAmong};
ghost use Rattle.edge_lists.specs.Records.{LiesAt, HasEdge};
ghost use Rattle.edge_lists.specs.Views.{is_there};
ghost use Rattle.edge_lists.specs.Types.{Out};

use crate::chains::{Spot, next_of};
use crate::objects::ObjectRecord;
use crate::probes::{further, lies_before};
use crate::records::EdgeRecord;
use crate::sides::Side;
use lore_base::Edge;
use slab::Slab;

// The spot of an edge in its owner's list: behind the last one that stands before it. The list is
// walked from a place before that, or from its head. The records that may wait, which aren't in their
// lists yet, are those of the edges that come.
pub(crate) fn spot_of(
    objects: &[ObjectRecord],
    records: &Slab<EdgeRecord>,
    side: Side,
    edge: &Edge,
    start: Option<usize>,
    come: &[Edge],
) -> Spot
    requires ascend { AreAscendingObjects objects.now }
    requires order { Ascend Out come.now }
    requires chained { (waiting : List ℕ) × AreChained side objects.now records.now waiting
        × WaitAmong side records.now waiting edge.now come.now
        × IsStart side records.now waiting edge.now start }
    ensures place { (waiting : List ℕ) → AreChained side objects.now records.now waiting
        → WaitAmong side records.now waiting edge.now come.now
        → IsStart side records.now waiting edge.now start
        → IsPlace side records.now waiting edge.now result.place }
    ensures next { result.next
        ≡ next_of side objects.now records.now (owner_of side edge.now) result.place }
{
    let owner = side.owner(edge);
    let mut place = start;
    let mut walked: usize = 0;
    'places: while let Some(key) = next_of(objects, records, side, owner, place) {
        let next = Some(key);
        let Some(record) = records.get(key) else {
            return Spot { place, next };
        };
        if !side.precedes(&record.edge, edge) {
            return Spot { place, next };
        }
        walked = walked.saturating_add(1);
        let later = further(records, side, edge, come, key, walked);
        place = Some(later);
    }
    Spot { place, next: None }
}

// The same spot, told at once where the edge comes right behind the start, as most new ones do.
pub(crate) fn spot_near(
    objects: &[ObjectRecord],
    records: &Slab<EdgeRecord>,
    side: Side,
    edge: &Edge,
    start: Option<usize>,
    come: &[Edge],
) -> Spot
    requires ascend { AreAscendingObjects objects.now }
    requires order { Ascend Out come.now }
    requires chained { (waiting : List ℕ) × AreChained side objects.now records.now waiting
        × WaitAmong side records.now waiting edge.now come.now
        × IsStart side records.now waiting edge.now start }
    ensures place { (waiting : List ℕ) → AreChained side objects.now records.now waiting
        → WaitAmong side records.now waiting edge.now come.now
        → IsStart side records.now waiting edge.now start
        → IsPlace side records.now waiting edge.now result.place }
    ensures next { result.next
        ≡ next_of side objects.now records.now (owner_of side edge.now) result.place }
{
    let owner = side.owner(edge);
    let next = next_of(objects, records, side, owner, start);
    if !is_past(records, side, edge, next) {
        return spot_of(objects, records, side, edge, start, come);
    }
    Spot { place: start, next }
}

// Whether what follows a place, if anything does, doesn't stand before the edge in its list.
fn is_past(records: &Slab<EdgeRecord>, side: Side, edge: &Edge, next: Option<usize>) -> bool
    ensures { result ≡ true → IsPast side records.now edge.now next }
{
    let Some(key) = next else {
        return true;
    };
    match records.get(key) {
        Some(record) => !side.precedes(&record.edge, edge),
        None => false,
    }
}

// Whether the record at the key is that of the edge.
pub(crate) fn has_edge_at(records: &Slab<EdgeRecord>, edge: &Edge, key: usize) -> bool
    ensures { IsTrue result ↔ LiesAt records.now key edge.now }
{
    match records.get(key) {
        Some(record) => record.edge == *edge,
        None => false,
    }
}

// The key, where the record that lies there is that of the edge.
fn key_of(records: &Slab<EdgeRecord>, edge: &Edge, next: Option<usize>) -> Option<usize>
    ensures some { IfSome result (λ key. LiesAt records.now key edge.now) }
    ensures none { IfNone result ((k : ℕ) → next ≡ Some k → ¬ LiesAt records.now k edge.now) }
{
    let key = next?;
    if has_edge_at(records, edge, key) {
        Some(key)
    } else {
        None
    }
}

/// Where an edge is, or would be, in the out list of its parent: the place before it, and the key
/// of its record.
#[derive(Clone, Copy)]
pub(crate) struct Found {
    pub(crate) place: Option<usize>,
    pub(crate) key: Option<usize>,
}

// Looks for an edge in the out list of its parent, from a place before it in that list.
pub(crate) fn find(
    objects: &[ObjectRecord],
    records: &Slab<EdgeRecord>,
    edge: &Edge,
    start: Option<usize>,
) -> Found
    requires ascend { AreAscendingObjects objects.now }
    requires chained { AreChained Out objects.now records.now [] }
    requires start { IsStart Out records.now [] edge.now start }
    ensures some { IfSome result.key (λ key. LiesAt records.now key edge.now) }
    ensures none { IfNone result.key (¬ HasEdge records.now edge.now) }
{
    if records.is_empty() {
        return Found {
            place: None,
            key: None,
        };
    }
    let spot = spot_of(objects, records, Side::Out, edge, start, &[]);
    let key = key_of(records, edge, spot.next);
    Found {
        place: spot.place,
        key,
    }
}

// Where to look for the place of an edge from: the record that was met last, if it stands before the
// edge in the same list, and else the head.
pub(crate) fn start_of(
    records: &Slab<EdgeRecord>,
    side: Side,
    edge: &Edge,
    last: Option<usize>,
) -> Option<usize>
    ensures { (waiting : List ℕ) → IfSome last (λ key. ¬ Contains waiting key)
        → IsStart side records.now waiting edge.now result }
{
    let Some(key) = last else {
        return None;
    };
    if lies_before(records, side, key, edge) {
        Some(key)
    } else {
        None
    }
}

// The key of the record of an edge. It is looked for first where it may lie, and then in the out
// list of its parent, from the record that was met last where it stands before the edge.
pub(crate) fn record_of(
    objects: &[ObjectRecord],
    records: &Slab<EdgeRecord>,
    edge: &Edge,
    likely: Option<usize>,
    last: Option<usize>,
) -> Option<usize>
    requires ascend { AreAscendingObjects objects.now }
    requires chained { AreChained Out objects.now records.now [] }
    ensures some { IfSome result (λ key. LiesAt records.now key edge.now) }
    ensures none { IfNone result (¬ HasEdge records.now edge.now) }
    ensures there { is_some result ≡ is_there records.now edge.now }
{
    if let Some(key) = key_of(records, edge, likely) {
        return Some(key);
    }
    let start = start_of(records, Side::Out, edge, last);
    let found = find(objects, records, edge, start);
    found.key
}
