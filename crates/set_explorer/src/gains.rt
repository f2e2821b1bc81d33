ghost use Rattle.std.specs.Prelude.{◌≡◌, ◌⊎◌, ◌↔◌, ◌<◌, ◌++◌, length, All, AllPairs, Contains};
ghost use Rattle.std.specs.Prelude.{IsTrue, IfSome, IfOk, OnOk};
ghost use Rattle.oem_set.specs.Sets.{IsSet};
ghost use Rattle.lore_base.specs.TargetSets.{ListsInOrder};
ghost use Rattle.set_explorer.specs.Types.{Label as TheLabel, Kept};
ghost use Rattle.set_explorer.specs.Nodes.{AscendByLabel};
ghost use Rattle.set_explorer.specs.Touched.{parents_of as the_parents};
ghost use Rattle.set_explorer.specs.PlannedNodes.{origin_set, IsOrigin};
ghost use Rattle.set_explorer.specs.inside.Gains.{labels_in, HasEither, IsThere, IsUnion, AreUnions};

use crate::nodes::{GuideNode, Node, next_by, node_of};
use crate::planned_nodes::Origin;
use lore_base::{Edge, Label, NoMemory, Oid, OidBuf, Word};
use oem_set::OidSet;
use set_steps::step_by;
use std::alloc::Global;

/// The objects that the edges leave, each once, in ascending order.
pub fn parents_of(alloc: Global, edges: &[Edge]) -> Result<OidSet, NoMemory>
    ensures { IfOk result (λ set. ListsInOrder (Contains (the_parents edges.now)) set) }
{
    let mut oids = OidBuf::with_capacity(alloc, edges.len())?;
    'edges: for edge in edges {
        oids.push(edge.parent)?;
    }
    let set = OidSet::from_buf(&mut oids)?;
    Ok(set)
}

// Those of the objects that are in the set.
fn those_in(alloc: Global, oids: &[Oid], set: &OidSet) -> Result<OidSet, NoMemory>
    ensures { IfOk result
        (λ both. ListsInOrder (λ oid. Contains oids.now oid × Contains set.now oid) both) }
{
    let mut both = OidBuf::new(alloc);
    'oids: for oid in oids {
        if set.contains(*oid) {
            both.push(*oid)?;
        }
    }
    let set = OidSet::from_buf(&mut both)?;
    Ok(set)
}

// The objects that are in both sets: those of the smaller one are looked for in the other.
pub(crate) fn in_both(alloc: Global, set: &OidSet, other: &OidSet) -> Result<OidSet, NoMemory>
    ensures { IfOk result
        (λ both. ListsInOrder (λ oid. Contains set.now oid × Contains other.now oid) both) }
{
    if set.len() <= other.len() {
        let both = those_in(alloc, set.as_slice(), other)?;
        return Ok(both);
    }
    let both = those_in(alloc, other.as_slice(), set)?;
    Ok(both)
}

// Puts the labels of a row behind those that are there.
fn push_labels<T>(labels: &mut Word, row: &[(Label, T)]) -> Result<(), NoMemory>
    ensures { OnOk result (labels.new ≡ labels.old ++ labels_in row.now) }
{
    'row: for entry in row {
        labels.push(entry.0)?;
    }
    Ok(())
}

// The labels of both rows, each once, in ascending order.
pub(crate) fn labels_of(
    alloc: Global,
    edges: &[(Label, Node)],
    row: &[(Label, OidSet)],
) -> Result<Word, NoMemory>
    ensures ascend { IfOk result (λ labels. AllPairs (λ a b. a.0 < b.0) labels) }
    ensures members { IfOk result (λ labels. (label : TheLabel) → Contains labels label
        ↔ (Contains (labels_in edges.now) label ⊎ Contains (labels_in row.now) label)) }
{
    let mut labels = Word::new(alloc);
    push_labels(&mut labels, edges)?;
    push_labels(&mut labels, row)?;
    labels.sort_set();
    Ok(labels)
}

// The set of a kept node, or that of none, with the objects of a step. The node's is put to the
// step's and not the other way round: new objects come behind the node's, and then nothing is
// sorted.
fn grown_set(
    alloc: Global,
    kept: &[GuideNode],
    node: Option<Node>,
    step: &OidSet,
) -> Result<OidSet, NoMemory>
    requires { IfSome node (λ node. node.0 < length kept.now) }
    ensures { IfOk result (ListsInOrder (HasEither kept.now node step.now)) }
{
    let mut set = OidSet::from_ascending(OidBuf::new(alloc));
    step.union_into(&mut set)?;
    match node {
        Some(node) => {
            node_of(kept, node).set.union_into(&mut set)?;
            return Ok(set);
        }
        None => return Ok(set),
    }
}

// Whether the set has all of the objects.
pub(crate) fn has_all(set: &OidSet, oids: &[Oid]) -> bool
    ensures { IsTrue result → All (Contains set.now) oids.now }
{
    'oids: for oid in oids {
        if !set.contains(*oid) {
            return false;
        }
    }
    true
}

// The node, where its set has all of the step.
fn node_with(kept: &[GuideNode], node: Option<Node>, step: &OidSet) -> Option<Node>
    requires within { IfSome node (λ node. node.0 < length kept.now) }
    requires ascend { IfSome node (λ node. IsSet (origin_set kept.now (Kept node))) }
    ensures within { IfSome result (λ own. own.0 < length kept.now) }
    ensures set { IfSome result (λ own. ListsInOrder (HasEither kept.now node step.now)
        (origin_set kept.now (Kept own))) }
{
    let own = node?;
    if has_all(&node_of(kept, own).set, step.as_slice()) {
        Some(own)
    } else {
        None
    }
}

// Where a label of the step leads: to the kept node of its edge, if there is one whose set has all of
// the step, and else to the set of that node with the objects of the step.
fn node_or_grown(
    alloc: Global,
    kept: &[GuideNode],
    node: Option<Node>,
    step: &OidSet,
) -> Result<Origin, NoMemory>
    requires within { IfSome node (λ node. node.0 < length kept.now) }
    requires ascend { IfSome node (λ node. IsSet (origin_set kept.now (Kept node))) }
    ensures there { IfOk result (λ origin. IsOrigin kept.now origin) }
    ensures set { IfOk result (λ origin. ListsInOrder (HasEither kept.now node step.now)
        (origin_set kept.now origin)) }
{
    match node_with(kept, node, step) {
        Some(own) => Ok(Origin::Kept(own)),
        None => {
            let set = grown_set(alloc, kept, node, step)?;
            Ok(Origin::Fresh(set))
        }
    }
}

// Where a label leads: to the kept node of its edge, where no step has the label or its set has all of
// the step, and else to the set of that node with the objects of the step.
pub(crate) fn united(
    alloc: Global,
    kept: &[GuideNode],
    edges: &[(Label, Node)],
    row: &[(Label, OidSet)],
    label: Label,
) -> Result<Origin, NoMemory>
    requires there { All (IsThere kept.now) edges.now }
    requires edges { AscendByLabel edges.now }
    requires row { AllPairs (λ a b. a.0.0 < b.0.0) row.now }
    ensures there { IfOk result (λ origin. IsOrigin kept.now origin) }
    ensures set { IfOk result (λ origin.
        IsUnion kept.now edges.now row.now label (origin_set kept.now origin)) }
{
    let node = next_by(edges, label);
    match step_by(row, label) {
        Some(step) => {
            let target = node_or_grown(alloc, kept, node, step)?;
            return Ok(target);
        }
        None => match node {
            Some(node) => return Ok(Origin::Kept(node)),
            None => {
                let none = OidSet::from_ascending(OidBuf::new(alloc));
                return Ok(Origin::Fresh(none));
            }
        },
    }
}

// Where the labels of the edges and of the steps lead, in the order of the labels.
pub(crate) fn united_targets(
    alloc: Global,
    kept: &[GuideNode],
    edges: &[(Label, Node)],
    row: &[(Label, OidSet)],
) -> Result<Vec<(Label, Origin)>, NoMemory>
    requires there { All (IsThere kept.now) edges.now }
    requires edges { AscendByLabel edges.now }
    requires row { AllPairs (λ a b. a.0.0 < b.0.0) row.now }
    ensures { IfOk result
        (λ targets. AreUnions kept.now edges.now row.now targets.items) }
{
    let labels = labels_of(alloc, edges, row)?;
    let mut targets = Vec::with_capacity(alloc, labels.len())?;
    'labels: for label in labels.as_slice() {
        let target = united(alloc, kept, edges, row, *label)?;
        targets.push((*label, target))?;
    }
    Ok(targets)
}
