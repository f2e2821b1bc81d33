ghost use Rattle.std.specs.Prelude.{◌≡◌, ◌≢◌, ℕ, Some, IfSome};
ghost use Rattle.slab.specs.Slab.{ContainsKey};
ghost use Rattle.edge_lists.specs.Types.{Before, After};
ghost use Rattle.edge_lists.specs.Edges.{owner_of};
ghost use Rattle.edge_lists.specs.Links.{Fits};
ghost use Rattle.edge_lists.specs.Records.{link_at, LiesAt};
ghost use Rattle.edge_lists.specs.Objects.{AreAscendingObjects, IsLive};
ghost use Rattle.edge_lists.specs.Chains.{next_of, IsLed, IsLedBack, IsJoined, IsParted};

use crate::objects::{ObjectRecord, head, set_head};
use crate::records::{EdgeRecord, link_at, relink};
use crate::sides::{Side, Way};
use lore_base::{Edge, Oid};
use slab::Slab;

/// Where an edge is put or looked for in a list: behind the place, and before what follows it.
#[derive(Clone, Copy)]
pub(crate) struct Spot {
    pub(crate) place: Option<usize>,
    pub(crate) next: Option<usize>,
}

// What follows the place in the object's list: the head where there is no place.
pub(crate) fn next_of(
    objects: &[ObjectRecord],
    records: &Slab<EdgeRecord>,
    side: Side,
    owner: Oid,
    place: Option<usize>,
) -> Option<usize>
    requires { AreAscendingObjects objects.now }
    ensures { result ≡ next_of side objects.now records.now owner place }
{
    match place {
        Some(key) => link_at(records, side, Way::After, key),
        None => head(objects, side, owner),
    }
}

// Sets what follows the place.
fn lead(
    objects: &mut [ObjectRecord],
    records: &mut Slab<EdgeRecord>,
    side: Side,
    owner: Oid,
    place: Option<usize>,
    link: Option<usize>,
)
    requires ascend { AreAscendingObjects objects.old }
    requires live { IsLive objects.old owner }
    requires place { IfSome place (ContainsKey records.old) }
    requires fits { Fits link }
    ensures { IsLed side owner place link objects.old records.old objects.new records.new }
{
    match place {
        Some(key) => relink(records, side, Way::After, key, link),
        None => set_head(objects, side, owner, link),
    }
}

// Sets what comes before the one that follows, where there is one.
fn lead_back(records: &mut Slab<EdgeRecord>, side: Side, next: Option<usize>, link: Option<usize>)
    requires next { IfSome next (ContainsKey records.old) }
    requires fits { Fits link }
    ensures { IsLedBack side next link records.old records.new }
{
    if let Some(key) = next {
        relink(records, side, Way::Before, key, link);
    }
}

// How many records fit. Their keys are below that, so there are links to all of them.
fn room(records: &Slab<EdgeRecord>) -> usize
    ensures { (key : ℕ) → ContainsKey records.now key → Fits (Some key) }
{
    records.capacity()
}

// Puts the record at the key into its list, at the spot. Takes no memory.
pub(crate) fn join(
    objects: &mut [ObjectRecord],
    records: &mut Slab<EdgeRecord>,
    side: Side,
    key: usize,
    owner: Oid,
    spot: Spot,
)
    requires ascend { AreAscendingObjects objects.old }
    requires live { IsLive objects.old owner }
    requires key { ContainsKey records.old key }
    requires follows { spot.next ≡ next_of side objects.old records.old owner spot.place }
    requires place { IfSome spot.place (ContainsKey records.old) }
    requires next { IfSome spot.next (ContainsKey records.old) }
    requires apart { spot.place ≢ Some key }
    requires new { spot.next ≢ Some key }
    ensures { IsJoined side key owner spot.place objects.old records.old objects.new records.new }
{
    let _room = room(records);
    relink(records, side, Way::Before, key, spot.place);
    relink(records, side, Way::After, key, spot.next);
    lead(objects, records, side, owner, spot.place, Some(key));
    lead_back(records, side, spot.next, Some(key));
}

// Takes the record at the key out of its list. Takes no memory.
pub(crate) fn part(
    objects: &mut [ObjectRecord],
    records: &mut Slab<EdgeRecord>,
    side: Side,
    key: usize,
    owner: Oid,
)
    requires ascend { AreAscendingObjects objects.old }
    requires live { IsLive objects.old owner }
    requires place { IfSome (link_at side Before records.old key) (ContainsKey records.old) }
    requires next { IfSome (link_at side After records.old key) (ContainsKey records.old) }
    ensures { IsParted side key owner objects.old records.old objects.new records.new }
{
    let _room = room(records);
    let place = link_at(records, side, Way::Before, key);
    let next = link_at(records, side, Way::After, key);
    lead(objects, records, side, owner, place, next);
    lead_back(records, side, next, place);
}
