ghost use Rattle.std.specs.Prelude.{◌≡◌, map, filter, IfOk, IfErr, OnOk};
ghost use Rattle.lore_base.specs.ChangeSets.{AreSame};
ghost use Rattle.lore_base.specs.ChangeCauses.{ChangeCause};
ghost use Rattle.lore_base.specs.Verdicts.{IsClear, IsToldBy};
ghost use Rattle.updates.specs.Types.{Complex};
ghost use Rattle.updates.specs.Effects.{targets, is_atomic, takers, assigning};
ghost use Rattle.updates.specs.inside.Forms.{form_order};
ghost use Rattle.updates.specs.Faults.{refusal_of};

use crate::faults::UpdateFault;
use crate::limit_tests::has_too_many;
use crate::row_tests::{hides_children, is_atomic};
use crate::update_changes::PairList;
use lore_base::{Changes, NoMemory, ObjectList, Oid, TryCopy, Value};
use oem_graph::Graph;
use oem_labels::LabelTable;
use std::alloc::Global;

/// The changes that give the targets of the rows the value: all of them an atomic one, and the
/// atomic ones among them that of a complex object. Refused are an atomic value for an object that
/// an edge leaves (`HasChildren`), and a table that has too many labels as it is (`TooManyLabels`).
pub(crate) fn assign(
    alloc: Global,
    value: &Value,
    rows: &PairList,
    graph: &Graph,
    labels: &LabelTable,
) -> Result<Changes, UpdateFault>
    ensures same { IfOk result
        (AreSame (assigning graph.now.graph.objects value.now (targets rows.now))) }
    ensures ok { let all = assigning graph.now.graph.objects value.now (targets rows.now) in
        OnOk result (IsClear (ChangeCause labels.now graph.now.graph all) form_order) }
    ensures err { let all = assigning graph.now.graph.objects value.now (targets rows.now) in
        IfErr result (λ fault. IsToldBy
        (ChangeCause labels.now graph.now.graph all) form_order (refusal_of fault)) }
{
    if hides_children(graph, value, rows.as_slice()) {
        return Err(UpdateFault::HasChildren);
    }
    let _next = graph.next();
    if has_too_many(labels) {
        return Err(UpdateFault::TooManyLabels);
    }
    let values = values_given(alloc, value, rows.as_slice(), graph)?;
    let mut changes = Changes::new(alloc);
    changes.values = values;
    Ok(changes)
}

// The objects that take the value, with it.
fn values_given(
    alloc: Global,
    value: &Value,
    rows: &[(Oid, Option<Oid>)],
    graph: &Graph,
) -> Result<ObjectList, NoMemory>
    ensures { let takers = takers graph.now.graph.objects value.now (targets rows.now) in
        IfOk result (λ values. values ≡ map (λ oid. (oid, value.now)) takers) }
{
    if value.is_complex() {
        emptied(alloc, rows, graph)
    } else {
        with_value(alloc, value, rows)
    }
}

// The targets with an atomic value, each with that of a complex object.
fn emptied(
    alloc: Global,
    rows: &[(Oid, Option<Oid>)],
    graph: &Graph,
) -> Result<ObjectList, NoMemory>
    ensures { let atomic = filter (is_atomic graph.now.graph.objects) (targets rows.now) in
        IfOk result (λ values. values ≡ map (λ oid. (oid, Complex)) atomic) }
{
    let mut values = ObjectList::new(alloc);
    'rows: for (target, _) in rows {
        if is_atomic(graph, *target) {
            values.push((*target, Value::Complex))?;
        }
    }
    Ok(values)
}

// The targets, each with the value.
fn with_value(
    alloc: Global,
    value: &Value,
    rows: &[(Oid, Option<Oid>)],
) -> Result<ObjectList, NoMemory>
    ensures { IfOk result (λ values. values ≡ map (λ oid. (oid, value.now)) (targets rows.now)) }
{
    let mut values = ObjectList::with_capacity(alloc, rows.len())?;
    'rows: for (target, _) in rows {
        values.push((*target, value.try_copy(alloc)?))?;
    }
    Ok(values)
}
