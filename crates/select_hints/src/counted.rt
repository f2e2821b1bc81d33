ghost use Rattle.std.specs.Prelude.{◌≡◌, ◌-◌, ◌≤◌, ◌^◌, min, IsTrue};
ghost use Rattle.lorel_bound.specs.Bound.{bound_cond, bound_conds, bound_operand, conds_from};
ghost use Rattle.select_hints.specs.Types.{LEAVES as THE_LEAVES};
ghost use Rattle.select_hints.specs.inside.Counts.{operand_leaves, cond_leaves, conds_leaves};

use lore_base::limits::LEAVES;
use lore_base::path_leaf_count;
use lorel_bound::{BoundCond, BoundCondList, BoundOperand};

/// Whether the paths of the condition have at most `LEAVES` leaves together.
pub(crate) fn are_few(cond: &BoundCond) -> bool
    ensures { IsTrue result → cond_leaves (bound_cond cond.now) ≤ THE_LEAVES }
{
    let count = leaves_of_cond(cond);
    if (LEAVES as u64) < count {
        return false;
    }
    true
}

// The number of leaves of the paths of a condition. It stands still at the greatest number of its
// type.
#[cycle(count)]
fn leaves_of_cond(cond: &BoundCond) -> u64
    ensures { result ≡ min (2 ^ 64 - 1) (cond_leaves (bound_cond cond.now)) }
{
    match cond {
        BoundCond::Or(members) | BoundCond::And(members) => leaves_of_list(members),
        BoundCond::Not(body) => leaves_of_cond(body),
        BoundCond::Exists { path, body } | BoundCond::ForAll { path, body } => {
            path_leaf_count(&path.rest).saturating_add(leaves_of_cond(body))
        }
        BoundCond::Compare { left, right, .. } => {
            leaves_of_operand(left).saturating_add(leaves_of_operand(right))
        }
        BoundCond::Same { left, right } => {
            path_leaf_count(&left.rest).saturating_add(path_leaf_count(&right.rest))
        }
    }
}

// The same of the paths of several conditions.
#[cycle(count)]
fn leaves_of_list(conds: &BoundCondList) -> u64
    ensures { result ≡ min (2 ^ 64 - 1) (conds_leaves (conds_from (bound_conds conds.now))) }
{
    let mut count: u64 = 0;
    'conds: for cond in conds.as_slice() {
        count = count.saturating_add(leaves_of_cond(cond));
    }
    count
}

// The same of the path of an operand, if it is one.
fn leaves_of_operand(operand: &BoundOperand) -> u64
    ensures { result ≡ min (2 ^ 64 - 1) (operand_leaves (bound_operand operand.now)) }
{
    match operand {
        BoundOperand::Atom(_) => 0,
        BoundOperand::At(path) => path_leaf_count(&path.rest),
    }
}
