ghost use Rattle.std.specs.Prelude.{◌≡◌, ℕ, ◌+◌, List, ◌++◌, map, OnOk};
ghost use Rattle.graph_search.specs.Closures.{LeadsFromPlace, Lists};
ghost use Rattle.object_search.specs.Types.{Oid as TheOid, Edge as TheEdge};
ghost use Rattle.object_search.specs.inside.Searches.{HasMark, HasChild, same_oid};

use crate::met::Met;
use crate::out_arcs::OutArcs;
use graph_search::{Counter, Space};
use lore_base::{Edge, EdgeBuf, NoMemory, Oid};
use std::alloc::Global;

// Edges as a space to search: an object leads to its children.
#[derive(Drop)]
pub(crate) struct Children<'a, A> {
    pub(crate) arcs: &'a A,
    pub(crate) edges: EdgeBuf,
}

// Appends the children of the edges, under the mark.
fn push_ends(edges: &[Edge], met: Met, out: &mut Vec<(Oid, Met)>) -> Result<(), NoMemory>
    ensures { OnOk result
        (out.new.items ≡ out.old.items ++ map (λ edge. (edge.child, met)) edges.now) }
{
    out.reserve(edges.len())?;
    'edges: for edge in edges {
        out.push((edge.child, met))?;
    }
    Ok(())
}

impl<'a, A: OutArcs<C>, C: Counter> Space<C> for Children<'a, A> {
    type Node = Oid;

    type Marks = Met;

    ghost Seen = { List TheEdge × (TheOid → ℕ) };

    ghost seen = { λ children. (A.edges children.arcs.now, A.cost children.arcs.now) };

    ghost leads = { λ seen. HasChild seen.0 };

    ghost cost = { λ seen place. seen.1 place.0 };

    fn push_next(
        &mut self,
        _alloc: Global,
        place: (Oid, Met),
        out: &mut Vec<(Oid, Met)>,
        steps: &mut C,
    ) -> Result<(), NoMemory>
        ensures next { OnOk result (Lists HasMark (LeadsFromPlace HasMark
            (HasChild (A.edges self.old.arcs.now)) place) out.old.items out.new.items) }
        ensures steps { OnOk result (C.count steps.new
            ≡ C.count steps.old + A.cost self.old.arcs.now place.0) }
        ensures same { ◌≡◌ {A = List TheEdge × (TheOid → ℕ)}
            (A.edges self.new.arcs.now, A.cost self.new.arcs.now)
            (A.edges self.old.arcs.now, A.cost self.old.arcs.now) }
    {
        self.edges.cut(0);
        self.arcs.push_out(place.0, &mut self.edges, steps)?;
        push_ends(self.edges.as_slice(), place.1, out)
    }

    ghost exact = { same_oid };
}
