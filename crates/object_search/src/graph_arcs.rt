ghost use Rattle.std.specs.Prelude.{◌≡◌, ◌+◌, ◌++◌, length, OnOk};
ghost use Rattle.lore_base.specs.Walks.{out_of};

use crate::out_arcs::OutArcs;
use index_traits::Adjacent;
use lore_base::{EdgeBuf, NoMemory, Oid, Steps};
use std::sync::ledger::Ledger;

/// The edges of a graph, whose reads are counted: a step for each object, and one for each edge.
#[derive(Drop)]
pub struct GraphArcs<'a, A> {
    pub graph: &'a A,
}

impl<'a, A: Adjacent, L: Ledger> OutArcs<Steps<L>> for GraphArcs<'a, A> {
    ghost edges = { λ arcs. A.edges arcs.graph.now };

    ghost cost = { λ arcs oid. 1 + length (out_of oid (A.edges arcs.graph.now)) };

    fn push_out(&self, oid: Oid, buf: &mut EdgeBuf, steps: &mut Steps<L>) -> Result<(), NoMemory>
        ensures edges { OnOk result
            (buf.new ≡ buf.old ++ out_of oid (A.edges self.now.graph.now)) }
        ensures cost { OnOk result
            (steps.new ≡ steps.old + (1 + length (out_of oid (A.edges self.now.graph.now)))) }
    {
        self.graph.out_edges(oid, buf, steps)
    }
}
