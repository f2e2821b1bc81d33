ghost use Rattle.std.specs.Prelude.{◌≡◌, ◌+◌, ◌++◌, length, OnOk};
ghost use Rattle.lore_base.specs.Walks.{out_of};
ghost use Rattle.oem_reach.specs.inside.Doubts.{old_of};

use index_traits::Adjacent;
use lore_base::{Edge, EdgeBuf, NoMemory, Oid, Steps};
use object_search::{OutArcs, SortedEdges};
use std::sync::ledger::Ledger;

// The edges of a graph that aren't fresh. Its reads are counted: fresh ones are read too.
#[derive(Drop)]
pub(crate) struct OldArcs<'a, A> {
    pub(crate) graph: &'a A,
    pub(crate) fresh: SortedEdges<'a>,
}

// Appends those of the edges that aren't fresh.
fn push_old(edges: &[Edge], fresh: &SortedEdges, buf: &mut EdgeBuf) -> Result<(), NoMemory>
    ensures { OnOk result (buf.new ≡ buf.old ++ old_of fresh.now edges.now) }
{
    'edges: for edge in edges {
        if !fresh.has(edge) {
            buf.push(*edge)?;
        }
    }
    Ok(())
}

impl<'a, A: Adjacent, L: Ledger> OutArcs<Steps<L>> for OldArcs<'a, A> {
    ghost edges = { λ arcs. old_of arcs.fresh (A.edges arcs.graph.now) };

    ghost cost = { λ arcs oid. 1 + length (out_of oid (A.edges arcs.graph.now)) };

    fn push_out(&self, oid: Oid, buf: &mut EdgeBuf, steps: &mut Steps<L>) -> Result<(), NoMemory>
        ensures edges { OnOk result (buf.new ≡ buf.old
            ++ out_of oid (old_of self.now.fresh (A.edges self.now.graph.now))) }
        ensures cost { OnOk result
            (steps.new ≡ steps.old + (1 + length (out_of oid (A.edges self.now.graph.now)))) }
    {
        let mut read = EdgeBuf::new(buf.allocator());
        self.graph.out_edges(oid, &mut read, steps)?;
        push_old(read.as_slice(), &self.fresh, buf)
    }
}
