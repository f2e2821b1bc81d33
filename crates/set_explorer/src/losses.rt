ghost use Rattle.std.specs.Prelude.{◌≡◌, ◌<◌, ◌++◌, ◌∷◌, [], ◌⊎◌, length, All, AllPairs, Contains};
ghost use Rattle.std.specs.Prelude.{IsTrue, IfSome, IfNone, IfOk, OnOk};
ghost use Rattle.lore_base.specs.Databases.{AreAscendingEdges};
ghost use Rattle.lore_base.specs.TargetSets.{ListsInOrder};
ghost use Rattle.set_steps.specs.SetSteps.{AreSteps};
ghost use Rattle.set_explorer.specs.Types.{Oid as TheOid};
ghost use Rattle.set_explorer.specs.Nodes.{AscendByLabel};
ghost use Rattle.set_explorer.specs.PlannedNodes.{IsOrigin};
ghost use Rattle.set_explorer.specs.Changes.{IsToldChange, AreParents};
ghost use Rattle.set_explorer.specs.inside.Founds.{steps_of};
ghost use Rattle.set_explorer.specs.inside.Gains.{LeadsBy, IsThere};
ghost use Rattle.set_explorer.specs.inside.Losses.{ListsRest, AreRest, StaysOrComes, HasOther};
ghost use Rattle.set_explorer.specs.inside.Losses.{LeadsPast, IsLeft, AreLeft};

use crate::changes::Change;
use crate::gains::{has_all, in_both, labels_of, united};
use crate::nodes::{GuideNode, Node, next_by, node_of};
use crate::planned_nodes::Origin;
use index_traits::Adjacent;
use lore_base::{Edge, Label, NoMemory, Oid, OidBuf};
use oem_set::OidSet;
use set_steps::{StepReader, step_by};
use std::alloc::Global;

// The steps of the set by listed edges, which ascend and leave these objects.
fn steps_in(
    alloc: Global,
    reader: &mut StepReader,
    listed: &[Edge],
    parents: &OidSet,
    set: &OidSet,
) -> Result<Vec<(Label, OidSet)>, NoMemory>
    requires ascend { AreAscendingEdges listed.now }
    requires parents { AreParents parents.now listed.now }
    ensures { IfOk result (λ row. AreSteps listed.now set.now row.items) }
{
    let members = in_both(alloc, set, parents)?;
    let row = reader.take(listed, &members)?;
    Ok(row)
}

// Whether the set has all objects of the steps.
fn are_told(row: &[(Label, OidSet)], told: &OidSet) -> bool
    ensures { IsTrue result → All (λ step. All (Contains told.now) step.1) row.now }
{
    'row: for step in row {
        if !has_all(told, step.1.as_slice()) {
            return false;
        }
    }
    true
}

// Those of the objects that aren't in the set.
fn those_out(alloc: Global, oids: &[Oid], set: &OidSet) -> Result<OidSet, NoMemory>
    ensures { IfOk result
        (λ out. ListsInOrder (λ oid. Contains oids.now oid × (¬ Contains set.now oid)) out) }
{
    let mut out = OidBuf::new(alloc);
    'oids: for oid in oids {
        if !set.contains(*oid) {
            out.push(*oid)?;
        }
    }
    let set = OidSet::from_buf(&mut out)?;
    Ok(set)
}

// Those of a step's objects that no other step with its label has.
fn rest_by(
    alloc: Global,
    back: &[(Label, OidSet)],
    label: Label,
    step: &OidSet,
) -> Result<OidSet, NoMemory>
    requires { AllPairs (λ a b. a.0.0 < b.0.0) back.now }
    ensures { IfOk result (λ rest. ListsRest back.now label step.now rest) }
{
    let oids = step.as_slice();
    if let Some(other) = step_by(back, label) {
        let rest = those_out(alloc, oids, other)?;
        return Ok(rest);
    }
    let none = OidSet::from_ascending(OidBuf::new(alloc));
    let all = those_out(alloc, oids, &none)?;
    Ok(all)
}

// Of each step those objects that no other step with its label has.
fn rest_of(
    alloc: Global,
    gone: &[(Label, OidSet)],
    back: &[(Label, OidSet)],
) -> Result<Vec<(Label, OidSet)>, NoMemory>
    requires { AllPairs (λ a b. a.0.0 < b.0.0) back.now }
    ensures { IfOk result (λ rest. AreRest gone.now back.now rest.items) }
{
    let mut rest = Vec::with_capacity(alloc, gone.len())?;
    'steps: for step in gone {
        let left = rest_by(alloc, back, step.0, &step.1)?;
        rest.push((step.0, left))?;
    }
    Ok(rest)
}

// The step with the label, unless it is empty.
fn some_step(row: &[(Label, OidSet)], label: Label) -> Option<&OidSet>
    requires { AllPairs (λ a b. a.0.0 < b.0.0) row.now }
    ensures found { IfSome result (λ step. Contains row.now (label, step.now)) }
    ensures none { IfNone result ((oid : TheOid) → ¬ LeadsBy row.now label oid) }
{
    let Some(step) = step_by(row, label) else {
        return None;
    };
    if step.len() == 0 {
        return None;
    }
    Some(step)
}

// The set of a kept node, or that of none, without the others.
fn kept_without(
    alloc: Global,
    kept: &[GuideNode],
    found: Option<Node>,
    others: &OidSet,
) -> Result<OidSet, NoMemory>
    requires { IfSome found (λ node. node.0 < length kept.now) }
    ensures { IfOk result (λ left. ListsInOrder (HasOther kept.now found others.now) left) }
{
    if let Some(node) = found {
        let there = node_of(kept, node);
        let left = those_out(alloc, there.set.as_slice(), others)?;
        return Ok(left);
    }
    let none = OidSet::from_ascending(OidBuf::new(alloc));
    Ok(none)
}

// What is left of a set, with the objects of a step. It is put to these, and not the other way round: new
// objects come behind, and then nothing is sorted.
fn with_step(alloc: Global, left: &OidSet, step: &OidSet) -> Result<OidSet, NoMemory>
    ensures { IfOk result
        (λ set. ListsInOrder (λ oid. Contains left.now oid ⊎ Contains step.now oid) set) }
{
    let mut set = OidSet::from_ascending(OidBuf::new(alloc));
    step.union_into(&mut set)?;
    left.union_into(&mut set)?;
    Ok(set)
}

// What the edge with the label leads to without the others, and with what comes by the label.
fn lessened(
    alloc: Global,
    kept: &[GuideNode],
    edges: &[(Label, Node)],
    come: &[(Label, OidSet)],
    label: Label,
    others: &OidSet,
) -> Result<OidSet, NoMemory>
    requires there { All (IsThere kept.now) edges.now }
    requires edges { AscendByLabel edges.now }
    requires come { AllPairs (λ a b. a.0.0 < b.0.0) come.now }
    ensures { IfOk result
        (λ set. ListsInOrder (LeadsPast kept.now edges.now come.now label others.now) set) }
{
    let node = next_by(edges, label);
    let left = kept_without(alloc, kept, node, others)?;
    if let Some(step) = step_by(come, label) {
        let set = with_step(alloc, &left, step)?;
        return Ok(set);
    }
    Ok(left)
}

// Where the label of others, which are lost, leads: to a set of its own; nowhere, where nothing is left.
fn lessened_target(
    alloc: Global,
    kept: &[GuideNode],
    edges: &[(Label, Node)],
    rest: &[(Label, OidSet)],
    come: &[(Label, OidSet)],
    label: Label,
    others: &OidSet,
) -> Result<Option<Origin>, NoMemory>
    requires there { All (IsThere kept.now) edges.now }
    requires edges { AscendByLabel edges.now }
    requires rest { AllPairs (λ a b. a.0.0 < b.0.0) rest.now }
    requires come { AllPairs (λ a b. a.0.0 < b.0.0) come.now }
    requires others { Contains rest.now (label, others.now) }
    ensures left { IfOk result (λ found.
        IfSome found (IsLeft kept.now edges.now rest.now come.now label)) }
    ensures none { IfOk result (λ found. IfNone found ((oid : TheOid)
        → ¬ StaysOrComes kept.now edges.now rest.now come.now label oid)) }
{
    // Only the clauses speak of the rest by other labels.
    let _ = rest;
    let set = lessened(alloc, kept, edges, come, label, others)?;
    if set.len() == 0 {
        return Ok(None);
    }
    Ok(Some(Origin::Fresh(set)))
}

// Where a label of the edges or of what comes leads: to the kept node of its edge, where nothing is lost by
// it and that node's set has what comes, and else to a set of its own; nowhere, where nothing is left.
fn left_target(
    alloc: Global,
    kept: &[GuideNode],
    edges: &[(Label, Node)],
    rest: &[(Label, OidSet)],
    come: &[(Label, OidSet)],
    label: Label,
) -> Result<Option<Origin>, NoMemory>
    requires there { All (IsThere kept.now) edges.now }
    requires edges { AscendByLabel edges.now }
    requires rest { AllPairs (λ a b. a.0.0 < b.0.0) rest.now }
    requires come { AllPairs (λ a b. a.0.0 < b.0.0) come.now }
    ensures left { IfOk result (λ found.
        IfSome found (IsLeft kept.now edges.now rest.now come.now label)) }
    ensures none { IfOk result (λ found. IfNone found ((oid : TheOid)
        → ¬ StaysOrComes kept.now edges.now rest.now come.now label oid)) }
{
    if let Some(others) = some_step(rest, label) {
        let past = lessened_target(alloc, kept, edges, rest, come, label, others)?;
        return Ok(past);
    }
    let target = united(alloc, kept, edges, come, label)?;
    Ok(Some(target))
}

// Puts the label with where it leads behind the others, if it leads anywhere.
fn push_left(
    targets: &mut Vec<(Label, Origin)>,
    label: Label,
    target: Option<Origin>,
) -> Result<(), NoMemory>
    ensures some { OnOk result (IfSome target
        (λ origin. targets.new.items ≡ targets.old.items ++ (label, origin) ∷ [])) }
    ensures none { OnOk result (IfNone target (targets.new.items ≡ targets.old.items)) }
{
    match target {
        Some(origin) => {
            targets.push((label, origin))?;
            Ok(())
        }
        None => Ok(()),
    }
}

// Where the labels of the edges and of what comes lead, without the rest, in the order of the labels.
fn left_targets(
    alloc: Global,
    kept: &[GuideNode],
    edges: &[(Label, Node)],
    rest: &[(Label, OidSet)],
    come: &[(Label, OidSet)],
) -> Result<Vec<(Label, Origin)>, NoMemory>
    requires there { All (IsThere kept.now) edges.now }
    requires edges { AscendByLabel edges.now }
    requires rest { AllPairs (λ a b. a.0.0 < b.0.0) rest.now }
    requires come { AllPairs (λ a b. a.0.0 < b.0.0) come.now }
    ensures { IfOk result
        (λ targets. AreLeft kept.now edges.now rest.now come.now targets.items) }
{
    let labels = labels_of(alloc, edges, come)?;
    let mut targets = Vec::with_capacity(alloc, labels.len())?;
    'labels: for label in labels.as_slice() {
        let target = left_target(alloc, kept, edges, rest, come, *label)?;
        push_left(&mut targets, *label, target)?;
    }
    Ok(targets)
}

// The targets of a node before whose set lost edges, by its own edges: without the children of lost edges
// that no entering edge leads to from a member, and with those of fresh ones. None where it isn't told of
// each of these children what enters it.
pub(crate) fn told_targets<A: Adjacent>(
    alloc: Global,
    reader: &mut StepReader,
    change: &Change<A>,
    there: &GuideNode,
) -> Result<Option<Vec<(Label, Origin)>>, NoMemory>
    requires told { IsToldChange change.now.guide.nodes.now change.now.lost.now
        change.now.fresh.now (A.edges change.now.after.now) change.now.told.now
        change.now.entering.now change.now.dirty.now change.now.grown.now change.now.back.now }
    requires there { Contains change.now.guide.nodes.now there.now }
    ensures steps { IfOk result (λ found. IfSome found
        (λ targets. AreSteps (A.edges change.now.after.now) there.now.set
        (steps_of change.now.guide.nodes.now targets.items))) }
    ensures there { IfOk result (λ found. IfSome found (λ targets.
        All (λ target. IsOrigin change.now.guide.nodes.now target.1) targets.items)) }
{
    let lost_row = steps_in(alloc, reader, change.lost, change.dirty, &there.set)?;
    let gone = lost_row.as_slice();
    if !are_told(gone, change.told) {
        return Ok(None);
    }
    let back_row = steps_in(alloc, reader, change.entering, change.back, &there.set)?;
    let back = back_row.as_slice();
    let fresh_row = steps_in(alloc, reader, change.fresh, change.grown, &there.set)?;
    let come = fresh_row.as_slice();
    let rest_row = rest_of(alloc, gone, back)?;
    let rest = rest_row.as_slice();
    let edges = there.edges.as_slice();
    let targets = left_targets(alloc, change.guide.nodes, edges, rest, come)?;
    Ok(Some(targets))
}
