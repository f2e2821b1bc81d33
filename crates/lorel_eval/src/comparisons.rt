ghost use Rattle.std.specs.Prelude.{◌↔◌, IsTrue, IfOk};
ghost use Rattle.lore_base.specs.Comparisons.{Compares};
ghost use Rattle.lorel_bound.specs.Conditions.{compare};
ghost use Rattle.lorel_eval.specs.Types.{Value as TheValue};
ghost use Rattle.lorel_eval.specs.inside.Ready.{ready_operand};
ghost use Rattle.lorel_eval.specs.inside.Subjects.{GivesIn, HoldsIn};
ghost use Rattle.lorel_eval.specs.inside.Sides.{HasSuch, SomeHasSuch};
ghost use Rattle.lorel_eval.specs.inside.Sides.{SideGives, ComparesWith, SidesCompare};

use crate::found::Found;
use crate::ready_conds::ReadyOperand;
use crate::subject::Subject;
use index_traits::{Adjacent, ValueOf};
use lore_base::{NoMemory, Oid, Op, Steps, Value};
use oem_atom::compare;
use std::alloc::Global;
use std::sync::ledger::Ledger;

// Whether some value that the left operand gives and some that the right one gives compare so.
pub(crate) fn comparison_holds<A: Adjacent, G: ValueOf, L: Ledger>(
    alloc: Global,
    subject: &Subject<A, G>,
    objects: &[Oid],
    left: &ReadyOperand,
    op: Op,
    right: &ReadyOperand,
    steps: &mut Steps<L>,
) -> Result<bool, NoMemory>
    ensures { IfOk result (λ answer. IsTrue answer ↔ HoldsIn subject.now objects.now
        (compare (ready_operand left.now) op (ready_operand right.now))) }
{
    let left = side_of(alloc, subject, objects, left, steps)?;
    let right = side_of(alloc, subject, objects, right, steps)?;
    Ok(sides_compare(subject.values, &left, op, &right))
}

// One side of a comparison: a value, or objects that stand for their values.
#[derive(Drop)]
enum Side<'a> {
    Own(&'a Value),
    Objects(Found),
}

// The side that an operand stands for.
fn side_of<'o, A: Adjacent, G: ValueOf, L: Ledger>(
    alloc: Global,
    subject: &Subject<A, G>,
    objects: &[Oid],
    operand: &ReadyOperand<'o>,
    steps: &mut Steps<L>,
) -> Result<Side<'o>, NoMemory>
    ensures { IfOk result (λ side. (value : TheValue) → SideGives subject.now.objects side value
        ↔ GivesIn subject.now objects.now (ready_operand operand.now) value) }
{
    match operand {
        ReadyOperand::Atom(value) => Ok(Side::Own(*value)),
        ReadyOperand::At(path) => {
            let found = subject.reached(alloc, objects, path, steps)?;
            Ok(Side::Objects(found))
        }
    }
}

// Whether some value of the left side and some of the right compare so.
fn sides_compare<G: ValueOf>(values: &G, left: &Side, op: Op, right: &Side) -> bool
    ensures { IsTrue result ↔ SidesCompare (G.objects values.now) left.now op right.now }
{
    match left {
        Side::Own(value) => value_compares(values, value, op, right),
        Side::Objects(oids) => some_compares(values, oids.as_slice(), op, right),
    }
}

// Whether the value of some of the objects and some value of the right side compare so.
fn some_compares<G: ValueOf>(values: &G, oids: &[Oid], op: Op, right: &Side) -> bool
    ensures { let objects = G.objects values.now in
        IsTrue result ↔ SomeHasSuch objects (ComparesWith objects op right.now) oids.now }
{
    'oids: for oid in oids {
        if object_compares(values, *oid, op, right) {
            return true;
        }
    }
    false
}

// Whether the object's value and some value of the right side compare so.
fn object_compares<G: ValueOf>(values: &G, oid: Oid, op: Op, right: &Side) -> bool
    ensures { let objects = G.objects values.now in
        IsTrue result ↔ HasSuch objects (ComparesWith objects op right.now) oid }
{
    match values.value_of(oid) {
        Some(value) => value_compares(values, value, op, right),
        None => false,
    }
}

// Whether the value and some value of the right side compare so.
fn value_compares<G: ValueOf>(values: &G, value: &Value, op: Op, right: &Side) -> bool
    ensures { IsTrue result ↔ ComparesWith (G.objects values.now) op right.now value.now }
{
    match right {
        Side::Own(other) => compare(value, op, other),
        Side::Objects(oids) => compares_with_some(values, value, op, oids.as_slice()),
    }
}

// Whether the value and that of some of the objects compare so.
fn compares_with_some<G: ValueOf>(values: &G, value: &Value, op: Op, oids: &[Oid]) -> bool
    ensures { IsTrue result
        ↔ SomeHasSuch (G.objects values.now) (Compares value.now op) oids.now }
{
    'oids: for oid in oids {
        if compares_with_object(values, value, op, *oid) {
            return true;
        }
    }
    false
}

// Whether the value and that of the object compare so.
fn compares_with_object<G: ValueOf>(values: &G, value: &Value, op: Op, oid: Oid) -> bool
    ensures { IsTrue result ↔ HasSuch (G.objects values.now) (Compares value.now op) oid }
{
    match values.value_of(oid) {
        Some(other) => compare(value, op, other),
        None => false,
    }
}
