ghost use Rattle.std.specs.Prelude.{◌≡◌, IfOk, IfErr};
ghost use Rattle.std.specs.List.{AllZip};
ghost use Rattle.lore_base.specs.PathOrder.{AreInPathOrder};
ghost use Rattle.lore_base.specs.GuideLimits.{FitsGuide};
ghost use Rattle.set_explorer.specs.Types.faults;
ghost use Rattle.set_explorer.specs.Nodes.{AreNodesOf, IsEntry, AreAscendingEntries, sets_of};
ghost use Rattle.set_explorer.specs.Touched.{ReadsTouched, ReadsSome};
ghost use Rattle.set_explorer.specs.PlannedNodes.{nodes_then, KeepsOnce};
ghost use Rattle.set_explorer.specs.HashedNodes.{IsHashed};
ghost use Rattle.set_explorer.specs.Changes.{IsToldChange};
ghost use Rattle.set_explorer.specs.GuideCauses.{GuideCause};

use crate::changes::Change;
use crate::explore::{Reading, expand, name_targets};
use crate::faults::GuideFault;
use crate::found::{Found, enter_all};
use crate::nodes::Node;
use crate::planned_nodes::DeltaNode;
use index_traits::Adjacent;
use lore_base::{Names, OemText, Steps};
use set_steps::StepReader;
use std::alloc::Global;
use std::sync::ledger::Ledger;

/// What was explored: a planned node for each target set, sets by their least label paths; and the
/// names with their nodes, in the order of the names' bytes.
#[derive(Drop)]
pub struct Explored {
    pub nodes: Vec<DeltaNode>,
    pub entries: Vec<(OemText, Node)>,
}

/// The target sets of a graph after a change, from its names on, found breadth first.
///
/// `Nodes` and `Cells` exactly where the first set that passes a limit passes this one; `NoMemory`
/// where memory was refused. A set is read once, where it is no node's or has a dirty member: all of
/// it, or, where the node noted for it has no dirty and no grown member and a part of it, the other
/// members, or, where it is a node's and of the children of its lost edges it is told what enters
/// them, nothing; so also where the answer is a refusal. A set that isn't read has the steps of its
/// node, without what lost edges take from them and with what the fresh ones add.
pub fn explore_sets<A: Adjacent, L: Ledger>(
    alloc: Global,
    change: &Change<A>,
    names: &Names,
    limit: u32,
    steps: &mut Steps<L>,
) -> Result<Explored, GuideFault>
    requires told { IsToldChange change.now.guide.nodes.now change.now.lost.now
        change.now.fresh.now (A.edges change.now.after.now) change.now.told.now
        change.now.entering.now change.now.dirty.now change.now.grown.now change.now.back.now }
    requires hashed { IsHashed change.now.guide.by_hash.now change.now.guide.nodes.now }
    ensures nodes { IfOk result (λ explored. AreNodesOf names.now (A.edges change.now.after.now)
        (nodes_then change.now.guide.nodes.now explored.nodes.items)) }
    ensures entries { IfOk result (λ explored. AllZip
        (IsEntry (nodes_then change.now.guide.nodes.now explored.nodes.items)) names.now
        explored.entries.items) }
    ensures ascend { IfOk result (λ explored. AreAscendingEntries explored.entries.items) }
    ensures order { IfOk result (λ explored.
        AreInPathOrder names.now (A.edges change.now.after.now)
        (sets_of (nodes_then change.now.guide.nodes.now explored.nodes.items))) }
    ensures fits { IfOk result (λ _. FitsGuide limit names.now (A.edges change.now.after.now)) }
    ensures keeps { IfOk result (λ explored.
        KeepsOnce change.now.guide.nodes.now explored.nodes.items) }
    ensures steps { IfOk result (λ explored. ReadsTouched (sets_of change.now.guide.nodes.now)
        change.now.dirty.now change.now.grown.now (A.edges change.now.after.now)
        (sets_of (nodes_then change.now.guide.nodes.now explored.nodes.items))
        steps.old steps.new) }
    ensures cause { IfErr result
        (λ fault. GuideCause limit names.now (A.edges change.now.after.now) fault) }
    ensures reads { IfErr result (λ fault. (fault ≡ faults.NoMemory → ⊥)
        → ReadsSome (sets_of change.now.guide.nodes.now) change.now.dirty.now
        change.now.grown.now limit names.now (A.edges change.now.after.now)
        steps.old steps.new) }
{
    let mut found = Found::new(alloc, change.guide.nodes)?;
    let starts = name_targets(alloc, names)?;
    let row = enter_all(alloc, &mut found, &change.guide, starts, limit)?;
    let entries = row.into_items();
    let mut reading = Reading {
        reader: StepReader::new(alloc),
        bases: Vec::new(alloc),
    };
    let mut next = 0;
    'nodes: while next < found.nodes.len() {
        expand(alloc, &mut found, next, change, &mut reading, limit, steps)?;
        next += 1;
    }
    let Found { nodes, .. } = found;
    Ok(Explored { nodes, entries })
}
