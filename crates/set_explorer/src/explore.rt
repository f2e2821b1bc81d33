ghost use Rattle.std.specs.Prelude.{◌≡◌, ◌+◌, ◌<◌, List, [], ◌∷◌, length, map, All, Contains};
ghost use Rattle.std.specs.Prelude.{Some, slice_get, IfOk, IfErr, OnOk};
ghost use Rattle.lore_base.specs.Names.{IsNameTable};
ghost use Rattle.lore_base.specs.GuideLimits.{KeepLimits};
ghost use Rattle.set_explorer.specs.Types.{Oid as TheOid, GuideNode as TheGuideNode, Kept, Fresh};
ghost use Rattle.set_steps.specs.SetSteps.{AreSteps, reads_of};
ghost use Rattle.set_explorer.specs.Nodes.{sets_of};
ghost use Rattle.set_explorer.specs.HashedNodes.{IsHashed};
ghost use Rattle.set_explorer.specs.Touched.{Meet, IsRead};
ghost use Rattle.set_explorer.specs.PlannedNodes.{IsOrigin, origin_set};
ghost use Rattle.set_explorer.specs.inside.Trails.{IsExpanded};
ghost use Rattle.set_explorer.specs.inside.Founds.{IsFound, found_nodes, found_sets, steps_of};
ghost use Rattle.set_explorer.specs.inside.Founds.{Costs, IsHalted};
ghost use Rattle.set_explorer.specs.Changes.{IsChange, IsToldChange};

use crate::changes::Change;
use crate::faults::GuideFault;
use crate::found::{Found, enter_all};
use crate::gains::{in_both, united_targets};
use crate::growth::{Bases, extended_targets, members_more, node_before, note_bases, noted};
use crate::losses::told_targets;
use crate::nodes::{GuideNode, Node, node_of};
use crate::planned_nodes::Origin;
use index_traits::Adjacent;
use lore_base::{Label, Names, NoMemory, OemText, Oid, OidBuf, Steps};
use oem_set::OidSet;
use set_steps::StepReader;
use std::alloc::Global;
use std::sync::ledger::Ledger;

// What the search for nodes has beside them: memory to read edges in, and the nodes before whose sets
// those that were found may extend.
#[derive(Drop)]
pub(crate) struct Reading {
    pub(crate) reader: StepReader,
    pub(crate) bases: Bases,
}

// The sets as targets that no node is known to have.
fn fresh_targets(alloc: Global, row: Vec<(Label, OidSet)>) -> Result<Vec<(Label, Origin)>, NoMemory>
    ensures { IfOk result
        (λ targets. targets.items ≡ map (λ step. (step.0, Fresh step.1)) row.items) }
{
    let mut targets = Vec::with_capacity(alloc, row.len())?;
    'row: for (label, set) in row {
        targets.push((label, Origin::Fresh(set)))?;
    }
    Ok(targets)
}

// The nodes that the edges lead to as targets.
fn kept_targets(alloc: Global, edges: &[(Label, Node)]) -> Result<Vec<(Label, Origin)>, NoMemory>
    ensures { IfOk result
        (λ targets. targets.items ≡ map (λ edge. (edge.0, Kept edge.1)) edges.now) }
{
    let mut targets = Vec::with_capacity(alloc, edges.len())?;
    'edges: for edge in edges {
        targets.push((edge.0, Origin::Kept(edge.1)))?;
    }
    Ok(targets)
}

// The objects of names, each alone, as targets.
pub(crate) fn name_targets(alloc: Global, names: &Names) -> Result<Vec<(OemText, Origin)>, NoMemory>
    ensures targets { IfOk result (λ targets. targets.items
        ≡ map (λ named. (named.0, Fresh (named.1 ∷ []))) names.now) }
    ensures table { IsNameTable names.now }
{
    let mut targets = Vec::with_capacity(alloc, names.len())?;
    let objects = names.objects()?;
    let oids = objects.as_slice();
    let texts = names.texts()?;
    'names: for text in texts.into_items() {
        let oid = oids[targets.len()];
        let mut alone = OidBuf::with_capacity(alloc, 1)?;
        alone.push(oid)?;
        targets.push((text, Origin::Fresh(OidSet::from_ascending(alone))))?;
    }
    Ok(targets)
}

// The targets of a set, read from the graph.
fn read_targets<A: Adjacent, L: Ledger>(
    alloc: Global,
    reader: &mut StepReader,
    graph: &A,
    set: &OidSet,
    steps: &mut Steps<L>,
) -> Result<Vec<(Label, Origin)>, NoMemory>
    ensures steps { IfOk result (λ targets. (kept : List TheGuideNode)
        → AreSteps (A.edges graph.now) set.now (steps_of kept targets.items)) }
    ensures there { IfOk result (λ targets. (kept : List TheGuideNode)
        → All (λ target. IsOrigin kept target.1) targets.items) }
    ensures reads { OnOk result (steps.new ≡ steps.old + reads_of (A.edges graph.now) set.now) }
{
    let row = reader.read(graph, set, steps)?;
    let targets = fresh_targets(alloc, row)?;
    Ok(targets)
}

// The targets of a set that no node had before: read, but of one that extends the set of the node, if one
// is told, which no lost and no fresh edge leaves, only the other members are read.
fn read_or_extended<A: Adjacent, L: Ledger>(
    alloc: Global,
    reader: &mut StepReader,
    change: &Change<A>,
    set: &OidSet,
    base: Option<Node>,
    steps: &mut Steps<L>,
) -> Result<Vec<(Label, Origin)>, NoMemory>
    requires stood { IsChange change.now.guide.nodes.now change.now.dirty.now change.now.grown.now
        change.now.fresh.now (A.edges change.now.after.now) }
    requires new { ¬ Contains (sets_of change.now.guide.nodes.now) set.now }
    ensures steps { IfOk result (λ targets. AreSteps (A.edges change.now.after.now) set.now
        (steps_of change.now.guide.nodes.now targets.items)) }
    ensures there { IfOk result (λ targets.
        All (λ target. IsOrigin change.now.guide.nodes.now target.1) targets.items) }
    ensures reads { OnOk result ((read : List TheOid)
        × IsRead (sets_of change.now.guide.nodes.now) change.now.dirty.now change.now.grown.now
        set.now read
        × (steps.new ≡ steps.old + reads_of (A.edges change.now.after.now) read)) }
{
    if let Some(there) = node_before(change.guide.nodes, base) {
        if let Some(more) = members_more(alloc, change, set, there)? {
            let targets = extended_targets(alloc, reader, change, there, &more, steps)?;
            return Ok(targets);
        }
    }
    let targets = read_targets(alloc, reader, change.after, set, steps)?;
    Ok(targets)
}

// Where the set of the found node at a place is from.
fn origin_at(found: &Found, place: usize) -> &Origin
    requires { place < length found.now.nodes.items }
    ensures { slice_get (map (λ planned. planned.origin) found.now.nodes.items) place
        ≡ Some result.now }
{
    &found.nodes[place].origin
}

// The targets of a node before that lost no edge: by its edges, and by the fresh edges that leave its
// set.
fn kept_or_grown<A: Adjacent>(
    alloc: Global,
    reader: &mut StepReader,
    change: &Change<A>,
    there: &GuideNode,
) -> Result<Vec<(Label, Origin)>, NoMemory>
    requires stood { IsChange change.now.guide.nodes.now change.now.dirty.now change.now.grown.now
        change.now.fresh.now (A.edges change.now.after.now) }
    requires there { Contains change.now.guide.nodes.now there.now }
    requires clean { ¬ Meet there.now.set change.now.dirty.now }
    ensures steps { IfOk result (λ targets. AreSteps (A.edges change.now.after.now) there.now.set
        (steps_of change.now.guide.nodes.now targets.items)) }
    ensures there { IfOk result (λ targets.
        All (λ target. IsOrigin change.now.guide.nodes.now target.1) targets.items) }
{
    let gained = in_both(alloc, &there.set, change.grown)?;
    if gained.len() == 0 {
        let targets = kept_targets(alloc, there.edges.as_slice())?;
        return Ok(targets);
    }
    let row = reader.take(change.fresh, &gained)?;
    let targets = united_targets(
        alloc,
        change.guide.nodes,
        there.edges.as_slice(),
        row.as_slice(),
    )?;
    Ok(targets)
}

// The targets of a node before whose set has a dirty member: by its own edges, where it is told what enters
// the children of those that it lost, and else read.
fn told_or_read<A: Adjacent, L: Ledger>(
    alloc: Global,
    reader: &mut StepReader,
    change: &Change<A>,
    there: &GuideNode,
    steps: &mut Steps<L>,
) -> Result<Vec<(Label, Origin)>, NoMemory>
    requires told { IsToldChange change.now.guide.nodes.now change.now.lost.now
        change.now.fresh.now (A.edges change.now.after.now) change.now.told.now
        change.now.entering.now change.now.dirty.now change.now.grown.now change.now.back.now }
    requires there { Contains change.now.guide.nodes.now there.now }
    ensures steps { IfOk result (λ targets. AreSteps (A.edges change.now.after.now) there.now.set
        (steps_of change.now.guide.nodes.now targets.items)) }
    ensures there { IfOk result (λ targets.
        All (λ target. IsOrigin change.now.guide.nodes.now target.1) targets.items) }
    ensures reads { OnOk result ((read : List TheOid)
        × IsRead (sets_of change.now.guide.nodes.now) change.now.dirty.now change.now.grown.now
        there.now.set read
        × (steps.new ≡ steps.old + reads_of (A.edges change.now.after.now) read)) }
{
    if let Some(told) = told_targets(alloc, reader, change, there)? {
        return Ok(told);
    }
    let targets = read_targets(alloc, reader, change.after, &there.set, steps)?;
    Ok(targets)
}

// The targets of a node before: told or read where its set has a dirty member.
fn kept_or_read<A: Adjacent, L: Ledger>(
    alloc: Global,
    reader: &mut StepReader,
    change: &Change<A>,
    node: Node,
    steps: &mut Steps<L>,
) -> Result<Vec<(Label, Origin)>, NoMemory>
    requires told { IsToldChange change.now.guide.nodes.now change.now.lost.now
        change.now.fresh.now (A.edges change.now.after.now) change.now.told.now
        change.now.entering.now change.now.dirty.now change.now.grown.now change.now.back.now }
    requires there { node.0 < length change.now.guide.nodes.now }
    ensures steps { IfOk result (λ targets. AreSteps (A.edges change.now.after.now)
        (origin_set change.now.guide.nodes.now (Kept node))
        (steps_of change.now.guide.nodes.now targets.items)) }
    ensures there { IfOk result (λ targets.
        All (λ target. IsOrigin change.now.guide.nodes.now target.1) targets.items) }
    ensures reads { OnOk result (Costs (sets_of change.now.guide.nodes.now) change.now.dirty.now
        change.now.grown.now (A.edges change.now.after.now)
        (origin_set change.now.guide.nodes.now (Kept node))
        steps.old steps.new) }
{
    let there = node_of(change.guide.nodes, node);
    if there.set.meets(change.dirty) {
        let targets = told_or_read(alloc, reader, change, there, steps)?;
        return Ok(targets);
    }
    let targets = kept_or_grown(alloc, reader, change, there)?;
    Ok(targets)
}

// The targets of the node at a place: those of the guide before where its set was a node's, as far as they
// are told, and else read from the graph, all or what the base's set was extended by.
fn targets_at<A: Adjacent, L: Ledger>(
    alloc: Global,
    found: &Found,
    place: usize,
    change: &Change<A>,
    base: Option<Node>,
    reader: &mut StepReader,
    steps: &mut Steps<L>,
) -> Result<Vec<(Label, Origin)>, NoMemory>
    requires told { IsToldChange change.now.guide.nodes.now change.now.lost.now
        change.now.fresh.now (A.edges change.now.after.now) change.now.told.now
        change.now.entering.now change.now.dirty.now change.now.grown.now change.now.back.now }
    requires found { IsFound change.now.guide.nodes.now found.now }
    requires place { place < length found.now.nodes.items }
    ensures steps { IfOk result (λ targets. (set : List TheOid)
        → slice_get (found_sets change.now.guide.nodes.now found.now) place ≡ Some set
        → AreSteps (A.edges change.now.after.now) set
        (steps_of change.now.guide.nodes.now targets.items)) }
    ensures there { IfOk result (λ targets.
        All (λ target. IsOrigin change.now.guide.nodes.now target.1) targets.items) }
    ensures reads { OnOk result ((set : List TheOid)
        → slice_get (found_sets change.now.guide.nodes.now found.now) place ≡ Some set
        → Costs (sets_of change.now.guide.nodes.now) change.now.dirty.now
        change.now.grown.now (A.edges change.now.after.now) set steps.old steps.new) }
{
    match origin_at(found, place) {
        Origin::Fresh(set) => {
            let targets = read_or_extended(alloc, reader, change, set, base, steps)?;
            return Ok(targets);
        }
        Origin::Kept(node) => {
            let targets = kept_or_read(alloc, reader, change, *node, steps)?;
            return Ok(targets);
        }
    }
}

// The node before whose edges tell where those of the node at a place may lead: the one that has its
// set, or the one whose set this may extend.
fn base_at(found: &Found, place: usize, bases: &Bases) -> Option<Node>
    requires { place < length found.now.nodes.items }
{
    match origin_at(found, place) {
        Origin::Kept(node) => Some(*node),
        Origin::Fresh(_) => noted(bases, place),
    }
}

// Enters the sets that the node at a place leads to, and gives the node its edges.
pub(crate) fn expand<A: Adjacent, L: Ledger>(
    alloc: Global,
    found: &mut Found,
    place: usize,
    change: &Change<A>,
    reading: &mut Reading,
    limit: u32,
    steps: &mut Steps<L>,
) -> Result<(), GuideFault>
    requires told { IsToldChange change.now.guide.nodes.now change.now.lost.now
        change.now.fresh.now (A.edges change.now.after.now) change.now.told.now
        change.now.entering.now change.now.dirty.now change.now.grown.now change.now.back.now }
    requires hashed { IsHashed change.now.guide.by_hash.now change.now.guide.nodes.now }
    requires found { IsFound change.now.guide.nodes.now found.old }
    requires fit { KeepLimits limit (found_sets change.now.guide.nodes.now found.old) }
    requires place { place < length found.old.nodes.items }
    ensures found { OnOk result (IsFound change.now.guide.nodes.now found.new) }
    ensures fit { OnOk result
        (KeepLimits limit (found_sets change.now.guide.nodes.now found.new)) }
    ensures expanded { OnOk result (IsExpanded (A.edges change.now.after.now)
        (found_nodes change.now.guide.nodes.now found.old) place
        (found_nodes change.now.guide.nodes.now found.new)) }
    ensures reads { OnOk result ((set : List TheOid)
        → slice_get (found_sets change.now.guide.nodes.now found.old) place ≡ Some set
        → Costs (sets_of change.now.guide.nodes.now) change.now.dirty.now
        change.now.grown.now (A.edges change.now.after.now) set steps.old steps.new) }
    ensures halted { IfErr result (λ fault. IsHalted fault limit (A.edges change.now.after.now)
        (sets_of change.now.guide.nodes.now) change.now.dirty.now change.now.grown.now
        (found_sets change.now.guide.nodes.now found.old) place steps.old steps.new) }
{
    let base = base_at(found, place, &reading.bases);
    let reader = &mut reading.reader;
    let targets = targets_at(alloc, found, place, change, base, reader, steps)?;
    let row = enter_all(alloc, found, &change.guide, targets, limit)?;
    note_bases(&mut reading.bases, change, base, row.as_slice())?;
    found.put_edges(change.guide.nodes, place, row);
    Ok(())
}
