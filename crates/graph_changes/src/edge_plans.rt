ghost use Rattle.std.specs.Prelude.{[], IfOk, vec_capacity};
ghost use Rattle.edge_lists.specs.Objects.{AreAscendingObjects};
ghost use Rattle.edge_lists.specs.Chains.{AreChained};
ghost use Rattle.graph_changes.specs.Types.{Out};
ghost use Rattle.graph_changes.specs.Left.{AreAscendingOids};
ghost use Rattle.graph_changes.specs.Planned.{ArePlannedEdges};

use crate::edges_then::{Going, edges_gone, with_living_parents};
use edge_layers::{RunStarts, join_order, sifted_set};
use edge_lists::{EdgeRecord, ObjectRecord};
use lore_base::{Changes, EdgeBuf, NoMemory, Oid};
use slab::Slab;
use std::alloc::Global;

/// The edges that go, where their records may lie, and the edges that come, with their places in the
/// order in which they are put into in lists, room for the keys of their records, and where those of
/// each object begin.
#[derive(Drop)]
pub struct EdgePlan {
    pub gone: EdgeBuf,
    pub come: EdgeBuf,
    pub likely: Vec<usize>,
    pub by_child: Vec<usize>,
    pub keys: Vec<usize>,
    pub starts: RunStarts,
}

/// Works out which edges go and which come with changes that leave these objects dead, both in
/// ascending order. An error only where memory is refused.
pub fn planned_edges(
    alloc: Global,
    objects: &[ObjectRecord],
    records: &Slab<EdgeRecord>,
    changes: &Changes,
    dead: &[Oid],
) -> Result<EdgePlan, NoMemory>
    requires ascend { AreAscendingObjects objects.now }
    requires chained { AreChained Out objects.now records.now [] }
    requires dead { AreAscendingOids dead.now }
    ensures { IfOk result (λ plan. ArePlannedEdges records.now changes.now dead.now plan.gone plan.come
        plan.by_child.items plan.keys.items (vec_capacity plan.keys)) }
{
    let removed = sifted_set(alloc, objects, records, changes.removed.as_slice())?;
    let added = sifted_set(alloc, objects, records, changes.added.as_slice())?;
    let lost = Going {
        edges: removed.there,
        likely: removed.keys,
    };
    let gone = edges_gone(alloc, objects, records, lost, dead)?;
    let come = with_living_parents(alloc, added.absent, dead)?;
    let by_child = join_order(alloc, come.as_slice(), records.is_empty())?;
    let keys = Vec::with_capacity(alloc, come.len())?;
    let starts = RunStarts::of(alloc, come.as_slice())?;
    Ok(EdgePlan {
        gone: gone.edges,
        come,
        likely: gone.likely,
        by_child,
        keys,
        starts,
    })
}
