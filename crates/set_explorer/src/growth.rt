ghost use Rattle.std.specs.Prelude.{◌≡◌, ◌+◌, ◌⊎◌, ◌↔◌, List, All, Contains, Some, slice_get};
ghost use Rattle.std.specs.Prelude.{IsTrue, IfOk, IfSome, OnOk};
ghost use Rattle.oem_set.specs.Sets.{IsSet};
ghost use Rattle.set_steps.specs.SetSteps.{AreSteps, reads_of};
ghost use Rattle.set_explorer.specs.Types.{Oid as TheOid};
ghost use Rattle.set_explorer.specs.PlannedNodes.{IsOrigin};
ghost use Rattle.set_explorer.specs.inside.Founds.{steps_of};
ghost use Rattle.set_explorer.specs.Touched.{Meet, IsExtended};
ghost use Rattle.set_explorer.specs.Changes.{IsChange};

use crate::changes::Change;
use crate::gains::united_targets;
use crate::nodes::{GuideNode, Node, next_by};
use crate::planned_nodes::Origin;
use index_traits::Adjacent;
use lore_base::{Label, NoMemory, Oid, OidBuf, Steps};
use oem_set::OidSet;
use set_steps::StepReader;
use std::alloc::Global;
use std::sync::ledger::Ledger;

// For nodes that were found, by their places, the node before whose set theirs may extend. No
// clause speaks of it: whoever takes one looks whether it is so.
pub(crate) type Bases = Vec<Option<Node>>;

// The node before with the number, if there is one.
pub(crate) fn node_before(kept: &[GuideNode], node: Option<Node>) -> Option<&GuideNode>
    ensures { IfSome result (λ there. Contains kept.now there.now) }
{
    kept.get(node?.0 as usize)
}

// The node before that is noted for the one at the place.
pub(crate) fn noted(bases: &Bases, place: usize) -> Option<Node> {
    *bases.get(place)?
}

// Notes a node before for a node that was found, where none is noted.
fn note_base(bases: &mut Bases, found: Node, base: Node) -> Result<(), NoMemory> {
    let place = found.0 as usize;
    if place >= bases.len() {
        bases.resize(place + 1, None)?;
    }
    if bases[place].is_none() {
        bases[place] = Some(base);
    }
    Ok(())
}

// Notes for the nodes that a row leads to those that the same labels led to from the node before.
pub(crate) fn note_bases<A: Adjacent>(
    bases: &mut Bases,
    change: &Change<A>,
    base: Option<Node>,
    row: &[(Label, Node)],
) -> Result<(), NoMemory>
    requires { IsChange change.now.guide.nodes.now change.now.dirty.now change.now.grown.now
        change.now.fresh.now (A.edges change.now.after.now) }
{
    let Some(there) = node_before(change.guide.nodes, base) else {
        return Ok(());
    };
    'row: for (label, node) in row {
        if let Some(before) = next_by(there.edges.as_slice(), *label) {
            note_base(bases, *node, before)?;
        }
    }
    Ok(())
}

// Whether the object stands at the place.
fn stands_at(oids: &[Oid], place: usize, oid: Oid) -> bool
    ensures { IsTrue result → slice_get oids.now place ≡ Some oid }
{
    match oids.get(place) {
        Some(there) => *there == oid,
        None => false,
    }
}

// The set of these objects, which ascend.
fn set_of(alloc: Global, oids: &[Oid]) -> Result<OidSet, NoMemory>
    requires { IsSet oids.now }
    ensures { IfOk result (λ set. set ≡ oids.now) }
{
    let mut set = OidBuf::with_capacity(alloc, oids.len())?;
    set.append(oids)?;
    Ok(OidSet::from_ascending(set))
}

// The ascending objects that the others lack, where the others, in the same order, are among them;
// else None. Where the others stand in front, what is behind them is these, and nothing is sought.
fn more_in(alloc: Global, oids: &[Oid], others: &[Oid]) -> Result<Option<OidSet>, NoMemory>
    requires { IsSet oids.now }
    ensures ascend { IfOk result (λ found. IfSome found (λ more. IsSet more)) }
    ensures apart { IfOk result (λ found. IfSome found (λ more. ¬ Meet others.now more)) }
    ensures parts { IfOk result (λ found. IfSome found (λ more. (oid : TheOid)
        → Contains oids.now oid ↔ (Contains others.now oid ⊎ Contains more oid))) }
{
    if let Some(rest) = oids.strip_prefix(others) {
        let set = set_of(alloc, rest)?;
        return Ok(Some(set));
    }
    let mut more = OidBuf::new(alloc);
    let mut next = 0;
    'oids: for oid in oids {
        if stands_at(others, next, *oid) {
            next += 1;
        } else {
            more.push(*oid)?;
        }
    }
    if next < others.len() {
        return Ok(None);
    }
    let set = OidSet::from_buf(&mut more)?;
    Ok(Some(set))
}

// The members that the set has beside those of a node before, where that one lost no edge, gained
// none, and is part of it; else None.
pub(crate) fn members_more<A>(
    alloc: Global,
    change: &Change<A>,
    set: &OidSet,
    there: &GuideNode,
) -> Result<Option<OidSet>, NoMemory>
    ensures { IfOk result (λ found. IfSome found (λ more.
        IsExtended change.now.dirty.now change.now.grown.now there.now.set more set.now)) }
{
    if set.len() < there.set.len() {
        return Ok(None);
    }
    if there.set.meets(change.dirty) {
        return Ok(None);
    }
    if there.set.meets(change.grown) {
        return Ok(None);
    }
    let more = more_in(alloc, set.as_slice(), there.set.as_slice())?;
    Ok(more)
}

// The targets of a set that extends that of a node before: by the edges of that node, and by those that
// leave the other members.
pub(crate) fn extended_targets<A: Adjacent, L: Ledger>(
    alloc: Global,
    reader: &mut StepReader,
    change: &Change<A>,
    there: &GuideNode,
    more: &OidSet,
    steps: &mut Steps<L>,
) -> Result<Vec<(Label, Origin)>, NoMemory>
    requires stood { IsChange change.now.guide.nodes.now change.now.dirty.now change.now.grown.now
        change.now.fresh.now (A.edges change.now.after.now) }
    requires there { Contains change.now.guide.nodes.now there.now }
    ensures steps { IfOk result (λ targets. (set : List TheOid)
        → IsExtended change.now.dirty.now change.now.grown.now there.now.set more.now set
        → AreSteps (A.edges change.now.after.now) set
        (steps_of change.now.guide.nodes.now targets.items)) }
    ensures there { IfOk result (λ targets.
        All (λ target. IsOrigin change.now.guide.nodes.now target.1) targets.items) }
    ensures reads { OnOk result
        (steps.new ≡ steps.old + reads_of (A.edges change.now.after.now) more.now) }
{
    let row = reader.read(change.after, more, steps)?;
    let targets = united_targets(
        alloc,
        change.guide.nodes,
        there.edges.as_slice(),
        row.as_slice(),
    )?;
    Ok(targets)
}
