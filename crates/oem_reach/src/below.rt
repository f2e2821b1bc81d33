ghost use Rattle.std.specs.Prelude.{◌≡◌, ◌+◌, sum_by, IfOk};
ghost use Rattle.lore_base.specs.Databases.{AreAscendingEdges};
ghost use Rattle.lore_base.specs.TargetSets.{ListsInOrder};
ghost use Rattle.object_search.specs.Reached.{IsWalkedFrom};
ghost use Rattle.read_costs.specs.ReadCosts.{out_reads};
ghost use Rattle.oem_reach.specs.inside.Doubts.{old_of};

use crate::old_arcs::OldArcs;
use index_traits::Adjacent;
use lore_base::{Edge, EdgeBuf, NoMemory, Oid, OidBuf, Steps};
use object_search::{GraphArcs, SortedEdges, reached_from};
use std::alloc::Global;
use std::sync::ledger::Ledger;
use strand_sort::sorted_set;

// The objects that walks without fresh edges reach from one of the starts, ascending, the starts
// among them. Each is read once.
pub(crate) fn objects_below<A: Adjacent, L: Ledger>(
    alloc: Global,
    graph: &A,
    fresh: &EdgeBuf,
    starts: &[Oid],
    steps: &mut Steps<L>,
) -> Result<OidBuf, NoMemory>
    ensures below { IfOk result
        (ListsInOrder (IsWalkedFrom (old_of fresh.now (A.edges graph.now)) starts.now)) }
    ensures steps { IfOk result (λ oids. steps.new
        ≡ steps.old + sum_by (out_reads (A.edges graph.now)) oids) }
{
    if fresh.is_empty() {
        let arcs = GraphArcs { graph };
        return reached_from(alloc, &arcs, starts, steps);
    }
    let sorted = sorted_set(alloc, fresh.as_slice())?;
    reached_before(alloc, graph, sorted.as_slice(), starts, steps)
}

// The same where the fresh edges ascend.
fn reached_before<A: Adjacent, L: Ledger>(
    alloc: Global,
    graph: &A,
    fresh: &[Edge],
    starts: &[Oid],
    steps: &mut Steps<L>,
) -> Result<OidBuf, NoMemory>
    requires { AreAscendingEdges fresh.now }
    ensures below { IfOk result
        (ListsInOrder (IsWalkedFrom (old_of fresh.now (A.edges graph.now)) starts.now)) }
    ensures steps { IfOk result (λ oids. steps.new
        ≡ steps.old + sum_by (out_reads (A.edges graph.now)) oids) }
{
    let arcs = OldArcs {
        graph,
        fresh: SortedEdges::new(fresh),
    };
    reached_from(alloc, &arcs, starts, steps)
}
