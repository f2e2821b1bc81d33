ghost use Rattle.std.specs.Prelude.{◌≡◌, ◌↔◌, true, Contains};
ghost use Rattle.lore_base.specs.TargetSets.{ListsInOrder};
ghost use Rattle.set_walk.specs.Types.{Oid as TheOid, Label as TheLabel};

use lore_base::{Label, Oid};
use std::hash::Hash;

/// A graph of sets: nodes that have objects, with edges by labels. Its reads take no memory.
pub trait SetGraph {
    type Node: Copy + Eq + Hash;

    /// An edge by the label leads from one node to another.
    ghost goes: { Self → Self.Node → TheLabel → Self.Node → Type 0 };

    /// The node has the object.
    ghost has: { Self → Self.Node → TheOid → Type 0 };

    /// The edges that leave the node, each a label and the node that it leads to.
    fn edges(&self, node: Self::Node) -> &[(Label, Self::Node)]
        ensures { (label : TheLabel) (next : Self.Node)
            → Contains result.now (label, next) ↔ goes self.now node label next };

    /// The objects of the node, ascending, each once.
    fn members(&self, node: Self::Node) -> &[Oid]
        ensures { ListsInOrder (has self.now node) result.now };

    /// Nodes that compare as equal are one node.
    ghost exact: { (a b : Self.Node) → Self.Node.eq a b ≡ true → a ≡ b };
}
