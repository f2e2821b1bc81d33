ghost use Rattle.std.specs.Prelude.{◌≡◌, ◌+◌, ◌++◌, ℕ, List, OnOk};
ghost use Rattle.lore_base.specs.Walks.{out_of};
ghost use Rattle.object_search.specs.Types.{Oid as TheOid, Edge as TheEdge};

use graph_search::Counter;
use lore_base::{EdgeBuf, NoMemory, Oid};

/// Edges that are followed from an object on, by what counts the cost.
pub trait OutArcs<C: Counter> {
    /// The edges.
    ghost edges: { Self → List TheEdge };

    /// What it costs to read the edges that leave an object.
    ghost cost: { Self → TheOid → ℕ };

    /// Appends the edges that leave the object to `buf`. Where memory is refused, nothing is
    /// promised of `buf` and `counter`.
    fn push_out(&self, oid: Oid, buf: &mut EdgeBuf, counter: &mut C) -> Result<(), NoMemory>
        ensures edges { OnOk result (buf.new ≡ buf.old ++ out_of oid (edges self.now)) }
        ensures cost { OnOk result
            (C.count counter.new ≡ C.count counter.old + cost self.now oid) };
}
