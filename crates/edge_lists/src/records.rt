ghost use Rattle.std.specs.Prelude.{◌≡◌};
ghost use Rattle.std.specs.Prelude.{IsSome};
ghost use Rattle.slab.specs.Slab.{ContainsKey};
ghost use Rattle.edge_lists.specs.Links.{Fits};
ghost use Rattle.edge_lists.specs.Records.{link_of, with_link, link_at, IsRelinked, alone};

use crate::links::Link;
use crate::sides::{Side, Way};
use lore_base::Edge;
use slab::Slab;

/// An edge, and its neighbours by key in the out list of its parent and in the in list of its
/// child.
#[derive(Debug, Drop)]
pub struct EdgeRecord {
    pub edge: Edge,
    pub out_before: Link,
    pub out_after: Link,
    pub in_before: Link,
    pub in_after: Link,
}

impl EdgeRecord {
    // The record of an edge that stands in no list.
    pub(crate) fn alone(edge: Edge) -> EdgeRecord
        ensures { result ≡ alone edge }
    {
        EdgeRecord {
            edge,
            out_before: Link::none(),
            out_after: Link::none(),
            in_before: Link::none(),
            in_after: Link::none(),
        }
    }

    pub(crate) fn link(&self, side: Side, way: Way) -> Option<usize>
        ensures { result ≡ link_of side way self.now }
    {
        match (side, way) {
            (Side::Out, Way::Before) => self.out_before.key(),
            (Side::Out, Way::After) => self.out_after.key(),
            (Side::In, Way::Before) => self.in_before.key(),
            (Side::In, Way::After) => self.in_after.key(),
        }
    }

    pub(crate) fn set_link(&mut self, side: Side, way: Way, link: Link)
        ensures { self.new ≡ with_link side way link self.old }
    {
        match (side, way) {
            (Side::Out, Way::Before) => self.out_before = link,
            (Side::Out, Way::After) => self.out_after = link,
            (Side::In, Way::Before) => self.in_before = link,
            (Side::In, Way::After) => self.in_after = link,
        }
    }
}

// The link of the record at the key; None where none lies there.
pub(crate) fn link_at(records: &Slab<EdgeRecord>, side: Side, way: Way, key: usize) -> Option<usize>
    ensures { result ≡ link_at side way records.now key }
{
    let record = records.get(key)?;
    record.link(side, way)
}

// Sets one link of the record at the key.
pub(crate) fn relink(
    records: &mut Slab<EdgeRecord>,
    side: Side,
    way: Way,
    key: usize,
    link: Option<usize>,
)
    requires key { ContainsKey records.old key }
    requires fits { Fits link }
    ensures { IsRelinked records.old side way key link records.new }
{
    let packed = Link::to(link);
    records[key].set_link(side, way, packed);
}
