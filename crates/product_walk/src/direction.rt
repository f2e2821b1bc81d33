ghost use Rattle.std.specs.Prelude.{◌≡◌, ℕ, List, ◌+◌, [], OnOk};
ghost use Rattle.lore_base.specs.Walks.{out_of};
ghost use Rattle.product_walk.specs.Types.{Oid as TheOid, Label as TheLabel, Edge as TheEdge};
ghost use Rattle.product_walk.specs.ProductWalks.{reads_out};
ghost use Rattle.product_walk.specs.inside.Arcs.{AreArcs, along, against, reads_entering};

use index_traits::{Adjacent, Links};
use lore_base::{Edge, EdgeBuf, NoMemory, Oid, Steps};
use std::sync::ledger::Ledger;

// A graph walked in one direction: the arcs of an object are its edges, each to its far end.
pub(crate) trait Arcs {
    ghost edges: { Self → List TheEdge };

    ghost goes: { List TheEdge → TheOid → TheLabel → TheOid → Type 0 };

    ghost far: { TheEdge → TheOid };

    fn far_end(&self, edge: &Edge) -> Oid
        ensures { result ≡ far edge.now };
}

// A graph that is read in one direction, and what that costs.
pub(crate) trait Direction: Arcs {
    ghost reads: { List TheEdge → TheOid → ℕ };

    // Puts the edges of the object into the empty buffer, those with one label side by side.
    fn read<L: Ledger>(
        &self,
        oid: Oid,
        buf: &mut EdgeBuf,
        steps: &mut Steps<L>,
    ) -> Result<(), NoMemory>
        requires { buf.old ≡ [] }
        ensures arcs { OnOk result (AreArcs (Self.goes (Self.edges self.now)) Self.far oid buf.new) }
        ensures steps { OnOk result (steps.new ≡ steps.old + reads (Self.edges self.now) oid) };
}

// Along the edges.
#[derive(Drop)]
pub(crate) struct Along<'a, A> {
    pub(crate) graph: &'a A,
}

impl<'a, A: Adjacent> Arcs for Along<'a, A> {
    ghost edges = { λ way. A.edges way.graph.now };

    ghost goes = { along };

    ghost far = { λ edge. edge.child };

    fn far_end(&self, edge: &Edge) -> Oid {
        edge.child
    }
}

impl<'a, A: Adjacent> Direction for Along<'a, A> {
    ghost reads = { reads_out };

    fn read<L: Ledger>(
        &self,
        oid: Oid,
        buf: &mut EdgeBuf,
        steps: &mut Steps<L>,
    ) -> Result<(), NoMemory> {
        self.graph.out_edges(oid, buf, steps)?;
        Ok(())
    }
}

// Against the edges.
#[derive(Drop)]
pub(crate) struct Against<'a, K> {
    pub(crate) links: &'a K,
}

impl<'a, K: Links> Arcs for Against<'a, K> {
    ghost edges = { λ way. K.edges way.links.now };

    ghost goes = { against };

    ghost far = { λ edge. edge.parent };

    fn far_end(&self, edge: &Edge) -> Oid {
        edge.parent
    }
}

impl<'a, K: Links> Direction for Against<'a, K> {
    ghost reads = { reads_entering };

    fn read<L: Ledger>(
        &self,
        oid: Oid,
        buf: &mut EdgeBuf,
        steps: &mut Steps<L>,
    ) -> Result<(), NoMemory> {
        self.links.parents(oid, None, buf, steps)?;
        Ok(())
    }
}

// Along the edges of a plain list, where nothing is counted.
#[derive(Drop)]
pub(crate) struct Listed<'a> {
    pub(crate) list: &'a EdgeBuf,
}

impl<'a> Arcs for Listed<'a> {
    ghost edges = { λ way. way.list.now };

    ghost goes = { along };

    ghost far = { λ edge. edge.child };

    fn far_end(&self, edge: &Edge) -> Oid {
        edge.child
    }
}

impl<'a> Listed<'a> {
    // Puts the edges that leave the object into the empty buffer.
    pub(crate) fn list_out(&self, oid: Oid, buf: &mut EdgeBuf) -> Result<(), NoMemory>
        requires { buf.old ≡ [] }
        ensures { OnOk result (buf.new ≡ out_of oid self.now.list.now) }
    {
        'edges: for edge in self.list.as_slice() {
            if edge.parent.0 == oid.0 {
                buf.push(*edge)?;
            }
        }
        Ok(())
    }
}
