ghost use Rattle.std.specs.Prelude.{◌≡◌, ◌↔◌, IsTrue};
ghost use Rattle.edge_lists.specs.Edges.{owner_of, other_end, side_cmp, Precedes};

use lore_base::{Edge, Oid};
use std::cmp::Ordering;

/// Which list: the out list of a parent or the in list of a child.
#[derive(Clone, Copy, Debug, PartialEq, Eq)]
pub enum Side {
    Out,
    In,
}

/// Which way along a list.
#[derive(Clone, Copy, Debug, PartialEq, Eq)]
pub enum Way {
    Before,
    After,
}

impl Side {
    /// The object in whose list the edge stands.
    pub fn owner(self, edge: &Edge) -> Oid
        ensures { result ≡ owner_of self edge.now }
    {
        match self {
            Side::Out => edge.parent,
            Side::In => edge.child,
        }
    }

    fn other_end(self, edge: &Edge) -> Oid
        ensures { result ≡ other_end self edge.now }
    {
        match self {
            Side::Out => edge.child,
            Side::In => edge.parent,
        }
    }

    /// How edges lie in the order of owner, label and other end.
    pub fn compare(self, a: &Edge, b: &Edge) -> Ordering
        ensures { result ≡ side_cmp self a.now b.now }
    {
        let owner = self.owner(a).cmp(&self.owner(b));
        let label = a.label.cmp(&b.label);
        let other = self.other_end(a).cmp(&self.other_end(b));
        owner.then(label.then(other))
    }

    /// Whether both stand in one list, the first before the second.
    pub fn precedes(self, a: &Edge, b: &Edge) -> bool
        ensures { IsTrue result ↔ Precedes self a.now b.now }
    {
        self.owner(a) == self.owner(b) && self.compare(a, b) == Ordering::Less
    }
}
