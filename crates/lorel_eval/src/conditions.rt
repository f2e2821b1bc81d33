ghost use Rattle.std.specs.Prelude.{◌≡◌, ◌↔◌, [], ◌∷◌, ◌++◌, Contains, IsTrue, IfOk};
ghost use Rattle.lorel_eval.specs.Types.{Oid as TheOid};
ghost use Rattle.lorel_eval.specs.inside.Labelled.{in_order};
ghost use Rattle.lorel_eval.specs.inside.Ready.{ready_tree, ready_trees};
ghost use Rattle.lorel_eval.specs.inside.Subjects.{HoldsIn, SomeHoldsIn, AllHoldIn};

use crate::comparisons::comparison_holds;
use crate::meeting::paths_meet;
use crate::ready_conds::{ReadyCond, ReadyCondList};
use crate::subject::Subject;
use index_traits::{Adjacent, ValueOf};
use lore_base::{NoMemory, Oid, OidBuf, Steps};
use std::alloc::Global;
use std::sync::ledger::Ledger;

/// Whether the condition holds of the subject, where the quantifiers around it have these objects,
/// from the outermost on.
#[cycle(cond)]
pub(crate) fn cond_holds<A: Adjacent, G: ValueOf, L: Ledger>(
    alloc: Global,
    subject: &Subject<A, G>,
    objects: &[Oid],
    cond: &ReadyCond,
    steps: &mut Steps<L>,
) -> Result<bool, NoMemory>
    ensures { IfOk result (λ answer.
        IsTrue answer ↔ HoldsIn subject.now objects.now (ready_tree cond.now)) }
{
    match cond {
        ReadyCond::Or(members) => some_holds(alloc, subject, objects, members, steps),
        ReadyCond::And(members) => all_hold(alloc, subject, objects, members, steps),
        ReadyCond::Not(body) => Ok(!cond_holds(alloc, subject, objects, body, steps)?),
        ReadyCond::Exists { path, body } => {
            let found = subject.reached(alloc, objects, path, steps)?;
            some_makes(alloc, subject, objects, found.as_slice(), body, steps)
        }
        ReadyCond::ForAll { path, body } => {
            let found = subject.reached(alloc, objects, path, steps)?;
            every_makes(alloc, subject, objects, found.as_slice(), body, steps)
        }
        ReadyCond::Compare { left, op, right } => {
            comparison_holds(alloc, subject, objects, left, *op, right, steps)
        }
        ReadyCond::Same { left, right } => {
            paths_meet(alloc, subject, objects, left, right, steps)
        }
    }
}

// Whether one of the conditions holds. Those behind it are not tested.
#[cycle(cond)]
fn some_holds<A: Adjacent, G: ValueOf, L: Ledger>(
    alloc: Global,
    subject: &Subject<A, G>,
    objects: &[Oid],
    members: &ReadyCondList,
    steps: &mut Steps<L>,
) -> Result<bool, NoMemory>
    ensures { IfOk result (λ answer.
        IsTrue answer ↔ SomeHoldsIn subject.now objects.now (in_order (ready_trees members.now))) }
{
    'members: for member in members.as_slice() {
        if cond_holds(alloc, subject, objects, member, steps)? {
            return Ok(true);
        }
    }
    Ok(false)
}

// Whether all of the conditions hold. Those behind one that doesn't are not tested.
#[cycle(cond)]
fn all_hold<A: Adjacent, G: ValueOf, L: Ledger>(
    alloc: Global,
    subject: &Subject<A, G>,
    objects: &[Oid],
    members: &ReadyCondList,
    steps: &mut Steps<L>,
) -> Result<bool, NoMemory>
    ensures { IfOk result (λ answer.
        IsTrue answer ↔ AllHoldIn subject.now objects.now (in_order (ready_trees members.now))) }
{
    'members: for member in members.as_slice() {
        if !cond_holds(alloc, subject, objects, member, steps)? {
            return Ok(false);
        }
    }
    Ok(true)
}

// Whether some of the objects makes the body hold.
#[cycle(cond)]
fn some_makes<A: Adjacent, G: ValueOf, L: Ledger>(
    alloc: Global,
    subject: &Subject<A, G>,
    objects: &[Oid],
    found: &[Oid],
    body: &ReadyCond,
    steps: &mut Steps<L>,
) -> Result<bool, NoMemory>
    ensures { IfOk result (λ answer. IsTrue answer ↔ ((oid : TheOid) × Contains found.now oid
        × HoldsIn subject.now (objects.now ++ oid ∷ []) (ready_tree body.now))) }
{
    'found: for oid in found {
        let within = with_object(alloc, objects, *oid)?;
        if cond_holds(alloc, subject, within.as_slice(), body, steps)? {
            return Ok(true);
        }
    }
    Ok(false)
}

// Whether every one of the objects makes the body hold.
#[cycle(cond)]
fn every_makes<A: Adjacent, G: ValueOf, L: Ledger>(
    alloc: Global,
    subject: &Subject<A, G>,
    objects: &[Oid],
    found: &[Oid],
    body: &ReadyCond,
    steps: &mut Steps<L>,
) -> Result<bool, NoMemory>
    ensures { IfOk result (λ answer. IsTrue answer ↔ ((oid : TheOid) → Contains found.now oid
        → HoldsIn subject.now (objects.now ++ oid ∷ []) (ready_tree body.now))) }
{
    'found: for oid in found {
        let within = with_object(alloc, objects, *oid)?;
        if !cond_holds(alloc, subject, within.as_slice(), body, steps)? {
            return Ok(false);
        }
    }
    Ok(true)
}

// The objects of the quantifiers around the body of one more, which has this object.
fn with_object(alloc: Global, objects: &[Oid], oid: Oid) -> Result<OidBuf, NoMemory>
    ensures { IfOk result (λ within. within ≡ objects.now ++ oid ∷ []) }
{
    let mut within = OidBuf::with_capacity(alloc, objects.len() + 1)?;
    within.append(objects)?;
    within.push(oid)?;
    Ok(within)
}
