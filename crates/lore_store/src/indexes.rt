ghost use Rattle.std.specs.Prelude.{◌≡◌, ◌≤◌, length, IfOk, OnOk};
ghost use Rattle.lore_base.specs.Databases.{OemGraph, IsRooted, AreAscendingEdges, new_graph};
ghost use Rattle.lore_base.specs.Deltas.{IsDelta};
ghost use Rattle.oem_graph.specs.Plans.{graph_then};
ghost use Rattle.value_changes.specs.Reads.{AreRead, ReadsChanged};
ghost use Rattle.lore_store.specs.Types.{EDGES};
ghost use Rattle.lore_store.specs.Indexes.{AreIndexes, AreIndexed, HasIndexRoom};
ghost use Rattle.lore_store.specs.inside.Fitting.{FitsIndexes};

use link_index::{LinkIndex, LinkPlan};
use lore_base::{EdgeBuf, NoMemory, Steps};
use oem_graph::{Graph, GraphPlan, Overlay};
use std::alloc::Global;
use std::sync::ledger::Ledger;
use value_changes::{EntryChanges, GraphChanges, entry_changes};
use value_index::{ValueIndex, ValuePlan};

/// The indexes of one graph: of its links and of its values.
#[derive(Drop)]
pub(crate) struct Indexes {
    pub(crate) links: LinkIndex,
    pub(crate) values: ValueIndex,
}

/// What goes of the indexes and what comes to them with a change, worked out by `planned_indexes`
/// and put in place by `commit_indexes`.
#[derive(Drop)]
pub(crate) struct IndexPlan {
    pub(crate) links: LinkPlan,
    pub(crate) values: ValuePlan,
}

/// The indexes of a graph, which has these edges.
pub(crate) fn built_indexes<L: Ledger>(
    alloc: Global,
    graph: &Graph,
    edges: &EdgeBuf,
    steps: &mut Steps<L>,
) -> Result<Indexes, NoMemory>
    requires rooted { IsRooted graph.now.graph }
    requires edges { edges.now ≡ graph.now.graph.edges }
    requires few { length edges.now ≤ EDGES }
    ensures { IfOk result (AreIndexes graph.now.graph) }
{
    let mut links = LinkIndex::new(alloc);
    let mut values = ValueIndex::new(alloc);
    match fill(alloc, &mut links, &mut values, graph, edges, steps) {
        Ok(()) => Ok(Indexes { links, values }),
        Err(error) => {
            drop(links);
            drop(values);
            Err(error)
        }
    }
}

// Makes the indexes of the new graph those of a graph that has these edges.
fn fill<L: Ledger>(
    alloc: Global,
    links: &mut LinkIndex,
    values: &mut ValueIndex,
    graph: &Graph,
    edges: &EdgeBuf,
    steps: &mut Steps<L>,
) -> Result<(), NoMemory>
    requires kept { AreIndexes new_graph (record { links = links.old; values = values.old }) }
    requires rooted { IsRooted graph.now.graph }
    requires edges { edges.now ≡ graph.now.graph.edges }
    requires few { length edges.now ≤ EDGES }
    ensures { OnOk result
        (AreIndexes graph.now.graph (record { links = links.new; values = values.new })) }
{
    let plan = first_plan(alloc, links, values, graph, edges, steps)?;
    match reserve_indexes(links, values, &plan) {
        Ok(()) => {
            commit_indexes(links, values, plan);
            Ok(())
        }
        Err(error) => {
            drop(plan);
            Err(error)
        }
    }
}

// Which entries come where the new graph becomes one with these edges.
fn first_plan<L: Ledger>(
    alloc: Global,
    links: &LinkIndex,
    values: &ValueIndex,
    graph: &Graph,
    edges: &EdgeBuf,
    steps: &mut Steps<L>,
) -> Result<IndexPlan, NoMemory>
    requires kept { AreIndexes new_graph (record { links = links.now; values = values.now }) }
    requires rooted { IsRooted graph.now.graph }
    requires edges { edges.now ≡ graph.now.graph.edges }
    requires few { length edges.now ≤ EDGES }
    ensures { IfOk result (AreIndexed new_graph graph.now.graph) }
{
    let links_then = links.prepare(&EdgeBuf::new(alloc), edges)?;
    let changes = GraphChanges {
        lost: &[],
        fresh: edges.as_slice(),
        given: &[],
        added: &[],
    };
    let nothing = Graph::new(alloc);
    let entries = entry_changes(alloc, links, &nothing, graph, changes, steps)?;
    let EntryChanges { gone, come } = entries;
    let values_then = values.prepare(gone, come)?;
    Ok(IndexPlan {
        links: links_then,
        values: values_then,
    })
}

/// Which entries go and come where the graph becomes that of the plan. The overlay has the edges
/// of before that don't go and those that it adds. Each object whose entries may change, and which has
/// an atomic value before or then, is read once, by the edges in it that enter the object.
pub(crate) fn planned_indexes<L: Ledger>(
    alloc: Global,
    links: &LinkIndex,
    values: &ValueIndex,
    graph: &Graph,
    overlay: &Overlay,
    plan: &GraphPlan,
    steps: &mut Steps<L>,
) -> Result<IndexPlan, NoMemory>
    requires kept { AreIndexes graph.now.graph
        (record { links = links.now; values = values.now }) }
    requires rooted { IsRooted graph.now.graph }
    requires then { IsRooted (graph_then graph.now.graph plan.now) }
    requires delta { IsDelta graph.now.graph (graph_then graph.now.graph plan.now)
        plan.now.delta }
    requires read { AreRead overlay.now.edges graph.now.graph.edges plan.now.delta.edges_gone
        overlay.now.fresh }
    requires few { length (graph_then graph.now.graph plan.now).edges ≤ EDGES }
    ensures entries { let after = graph_then graph.now.graph plan.now in
        IfOk result (AreIndexed graph.now.graph after) }
    ensures reads { let delta = plan.now.delta in
        let after = graph_then graph.now.graph plan.now in
        OnOk result (AreAscendingEdges overlay.now.edges → ReadsChanged overlay.now.edges
        delta.edges_gone delta.edges_come delta.objects_come graph.now.graph.objects after.objects
        steps.old steps.new) }
{
    let delta = plan.delta();
    let links_then = links.prepare(&delta.edges_gone, &delta.edges_come)?;
    let then = graph.then(plan);
    let changes = GraphChanges {
        lost: delta.edges_gone.as_slice(),
        fresh: delta.edges_come.as_slice(),
        given: delta.objects_come.as_slice(),
        added: overlay.fresh().as_slice(),
    };
    let entries = entry_changes(alloc, overlay, graph, &then, changes, steps)?;
    let EntryChanges { gone, come } = entries;
    let values_then = values.prepare(gone, come)?;
    Ok(IndexPlan {
        links: links_then,
        values: values_then,
    })
}

/// Takes the memory that `commit_indexes` needs for this plan. What the indexes hold stays,
/// whatever the answer.
pub(crate) fn reserve_indexes(
    links: &mut LinkIndex,
    values: &mut ValueIndex,
    plan: &IndexPlan,
) -> Result<(), NoMemory>
    ensures room { OnOk result
        (HasIndexRoom (record { links = links.new; values = values.new }) plan.now) }
    ensures same { (graph : OemGraph)
        → AreIndexes graph (record { links = links.old; values = values.old })
        → AreIndexes graph (record { links = links.new; values = values.new }) }
{
    links.reserve(&plan.links)?;
    values.reserve(&plan.values)
}

/// Takes out what goes, and puts in what comes. Takes no memory.
pub(crate) fn commit_indexes(links: &mut LinkIndex, values: &mut ValueIndex, plan: IndexPlan)
    requires fits { FitsIndexes (record { links = links.old; values = values.old }) plan }
    requires room { HasIndexRoom (record { links = links.old; values = values.old }) plan }
    ensures { (before after : OemGraph)
        → AreIndexes before (record { links = links.old; values = values.old })
        → AreIndexed before after plan
        → AreIndexes after (record { links = links.new; values = values.new }) }
{
    let IndexPlan {
        links: links_then,
        values: values_then,
    } = plan;
    links.commit(links_then);
    values.commit(values_then);
}
