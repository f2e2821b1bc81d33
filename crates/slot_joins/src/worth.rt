ghost use Rattle.std.specs.Prelude.{◌≡◌, IfSome};
ghost use Rattle.lorel_bound.specs.Bound.{bound_cond, bound_operand, bound_path};
ghost use Rattle.lorel_bound.specs.Conditions.{at, compare};
ghost use Rattle.slot_joins.specs.Types.{Eq};

use index_traits::Values;
use lore_base::{Op, Value};
use lorel_bound::{BoundCond, BoundOperand, BoundPath};
use member_clues::{is_probed, slot_at};
use oem_labels::LabelTable;
use planner::last_label;

/// Whether the condition, or a member of it, asks that two slots lead to equal values. No promise
/// rests on it.
pub fn may_be_joined(cond: &BoundCond) -> bool {
    match cond {
        BoundCond::And(members) => some_join(members.as_slice()),
        _ => joins_slots(cond),
    }
}

fn some_join(members: &[BoundCond]) -> bool {
    'members: for member in members {
        if joins_slots(member) {
            return true;
        }
    }
    false
}

/// Whether the condition compares what two slots lead to by `=`. No promise rests on it.
pub(crate) fn joins_slots(cond: &BoundCond) -> bool {
    let Some((left, right)) = paths_of(cond) else {
        return false;
    };
    match (slot_at(left), slot_at(right)) {
        (Some(slot), Some(other)) => slot != other,
        _ => false,
    }
}

/// The two paths that the condition asks to lead to equal values.
pub(crate) fn paths_of(cond: &BoundCond) -> Option<(&BoundPath, &BoundPath)>
    ensures { IfSome result (λ found. bound_cond cond.now
        ≡ compare (at (bound_path found.0.now)) Eq (at (bound_path found.1.now))) }
{
    match cond {
        BoundCond::Compare { left, op, right } => paths_compared(left, *op, right),
        _ => None,
    }
}

// The same of a comparison of these sides.
fn paths_compared<'c>(
    left: &'c BoundOperand,
    op: Op,
    right: &'c BoundOperand,
) -> Option<(&'c BoundPath, &'c BoundPath)>
    ensures { IfSome result (λ found.
        compare (bound_operand left.now) op (bound_operand right.now)
        ≡ compare (at (bound_path found.0.now)) Eq (at (bound_path found.1.now))) }
{
    match (left, op, right) {
        (BoundOperand::At(left), Op::Eq, BoundOperand::At(right)) => Some((left, right)),
        _ => None,
    }
}

/// A guess of how many of so many objects for the first slot are looked up: at most as many as
/// have a value that the condition, or a member of it, compares with a given one. No promise rests
/// on it.
pub fn fewest_of<V: Values>(
    values: &V,
    labels: &LabelTable,
    cond: &BoundCond,
    first: Option<u32>,
    count: u32,
) -> u32 {
    match cond {
        BoundCond::And(members) => fewest_in(values, labels, members.as_slice(), first, count),
        _ => fewest_by(values, labels, cond, first, count),
    }
}

fn fewest_in<V: Values>(
    values: &V,
    labels: &LabelTable,
    members: &[BoundCond],
    first: Option<u32>,
    count: u32,
) -> u32 {
    let mut fewest = count;
    'members: for member in members {
        fewest = fewest_by(values, labels, member, first, fewest);
    }
    fewest
}

fn fewest_by<V: Values>(
    values: &V,
    labels: &LabelTable,
    cond: &BoundCond,
    first: Option<u32>,
    count: u32,
) -> u32 {
    match cond {
        BoundCond::Compare { left, op, right } => match (left, right) {
            (BoundOperand::At(path), BoundOperand::Atom(value)) => {
                if slot_at(path) != first {
                    return count;
                }
                count.min(count_at(values, labels, path, *op, value, count))
            }
            _ => count,
        },
        _ => count,
    }
}

// How many objects have such a value under the last label of the path; what is given where that
// isn't told.
fn count_at<V: Values>(
    values: &V,
    labels: &LabelTable,
    path: &BoundPath,
    op: Op,
    value: &Value,
    other: u32,
) -> u32 {
    if value.is_complex() {
        return other;
    }
    if !is_probed(op) {
        return other;
    }
    let Some(text) = last_label(&path.rest) else {
        return other;
    };
    match labels.find(text) {
        Some(label) => values.probe_count(label, op, value),
        None => 0,
    }
}
