ghost use Rattle.std.specs.Prelude.{◌≡◌, ℕ, List, [], ◌∷◌, Contains};
ghost use Rattle.slab.specs.Slab.{HasRoomFor};
ghost use Rattle.edge_lists.specs.Types.{Out, In};
ghost use Rattle.edge_lists.specs.Records.{LiesAt, HasEdge};
ghost use Rattle.edge_lists.specs.Objects.{AreAscendingObjects, IsLive};
ghost use Rattle.edge_lists.specs.Edges.{Ascend};
ghost use Rattle.edge_lists.specs.Chains.{AreChained, IsStart, WaitAmong, IsPutOut, IsPutIn, IsTakenOut};

use crate::chains::{join, part};
use crate::objects::ObjectRecord;
use crate::records::EdgeRecord;
use crate::sides::Side;
use crate::walks::spot_near;
use lore_base::Edge;
use slab::Slab;

// Puts a new edge into the out list of its parent, found from a place before it in that list.
// Takes no memory.
pub(crate) fn put_out(
    objects: &mut [ObjectRecord],
    records: &mut Slab<EdgeRecord>,
    edge: &Edge,
    start: Option<usize>,
) -> usize
    requires room { HasRoomFor records.old 1 }
    requires ascend { AreAscendingObjects objects.old }
    requires live { IsLive objects.old edge.now.parent }
    requires new { ¬ HasEdge records.old edge.now }
    requires chained { AreChained Out objects.old records.old [] }
    requires start { IsStart Out records.old [] edge.now start }
    ensures { IsPutOut edge.now result objects.old records.old objects.new records.new }
{
    let key = records.insert_reserved(EdgeRecord::alone(*edge));
    let spot = spot_near(objects, records, Side::Out, edge, start, &[]);
    join(objects, records, Side::Out, key, edge.parent, spot);
    key
}

// Puts a record that waits into the in list of its child, found from a place before it in that
// list; the records that wait are those of edges that come. Takes no memory.
pub(crate) fn put_in(
    objects: &mut [ObjectRecord],
    records: &mut Slab<EdgeRecord>,
    key: usize,
    edge: &Edge,
    start: Option<usize>,
    come: &[Edge],
)
    requires ascend { AreAscendingObjects objects.old }
    requires live { IsLive objects.old edge.now.child }
    requires lies { LiesAt records.old key edge.now }
    requires out { AreChained Out objects.old records.old [] }
    requires order { Ascend Out come.now }
    requires chained { (waiting : List ℕ) × AreChained In objects.old records.old (key ∷ waiting)
        × WaitAmong In records.old (key ∷ waiting) edge.now come.now
        × IsStart In records.old (key ∷ waiting) edge.now start × (¬ Contains waiting key) }
    ensures { IsPutIn edge.now key start come.now
        objects.old records.old objects.new records.new }
{
    let spot = spot_near(objects, records, Side::In, edge, start, come);
    join(objects, records, Side::In, key, edge.child, spot);
}

// Takes a record from both of its lists. Takes no memory.
pub(crate) fn take_out(
    objects: &mut [ObjectRecord],
    records: &mut Slab<EdgeRecord>,
    key: usize,
    edge: &Edge,
)
    requires ascend { AreAscendingObjects objects.old }
    requires parent { IsLive objects.old edge.now.parent }
    requires child { IsLive objects.old edge.now.child }
    requires lies { LiesAt records.old key edge.now }
    requires out { AreChained Out objects.old records.old [] }
    requires entering { AreChained In objects.old records.old [] }
    ensures { IsTakenOut key objects.old records.old objects.new records.new }
{
    part(objects, records, Side::Out, key, edge.parent);
    part(objects, records, Side::In, key, edge.child);
    records.remove(key);
}
