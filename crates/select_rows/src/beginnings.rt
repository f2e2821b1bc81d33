ghost use Rattle.std.specs.Prelude.{◌≡◌, ◌≢◌, map, All};
ghost use Rattle.std.specs.Prelude.{IsTrue, IfOk, IfSome};
ghost use Rattle.lorel_bound.specs.Plans.{IsCandidate, filter, step_tree};
ghost use Rattle.plan_ops.specs.Rows.{IsGuided};
ghost use Rattle.plan_laws.specs.Orders.{CanBeReady};
ghost use Rattle.index_traits.specs.Entries.{IsProbed};
ghost use Rattle.select_rows.specs.Types.{Oid as TheOid, Complex};
ghost use Rattle.select_rows.specs.inside.Reads.{ReadsSome};

use index_traits::{Paths, Values};
use lore_base::{Label, NoMemory, Op, Value};
use lorel_bound::PlanStep;
use std::alloc::Global;

/// How many objects the steps begin with, where many rows may be tested: there are so many by the
/// guide, or values that some object has. These may be few, but a plan that begins with few values
/// has few objects listed too. In both cases the steps may read an edge.
pub(crate) fn many_first<V: Values, P: Paths>(
    alloc: Global,
    values: &V,
    paths: &P,
    steps: &[PlanStep],
    least: usize,
) -> Result<Option<u32>, NoMemory>
    requires { All CanBeReady (map step_tree steps.now) }
    ensures { IfOk result (λ found. IfSome found (λ count.
        ReadsSome (V.entries values.now) (map step_tree steps.now))) }
{
    let Some((first, _)) = steps.split_first() else {
        return Ok(None);
    };
    match first {
        PlanStep::FromValue {
            label,
            op,
            value,
            ..
        } => Ok(count_found(values, *label, *op, value)),
        PlanStep::FromGuide { named, path, .. } => {
            if !ends_in_test(steps) {
                return Ok(None);
            }
            Ok(not_fewer(least, paths.count(alloc, path, *named)?))
        }
        _ => Ok(None),
    }
}

// So many, where they aren't fewer.
fn not_fewer(least: usize, count: usize) -> Option<u32> {
    if count < least {
        return None;
    }
    Some(u32::try_from(count).unwrap_or(u32::MAX))
}

// Whether the last step tests the condition: then not all steps are told by the guide.
fn ends_in_test(steps: &[PlanStep]) -> bool
    ensures { IsTrue result → All IsGuided (map step_tree steps.now) → ⊥ }
{
    let Some(last) = steps.last() else {
        return false;
    };
    is_test(last)
}

// Whether the step tests the condition.
fn is_test(step: &PlanStep) -> bool
    ensures { IsTrue result → step_tree step.now ≡ filter }
{
    match step {
        PlanStep::Filter => true,
        _ => false,
    }
}

// How many objects have such a value, if some have.
fn count_found<V: Values>(values: &V, label: Option<Label>, op: Op, value: &Value) -> Option<u32>
    requires op { IsProbed op }
    requires value { value.now ≢ Complex }
    ensures { IfSome result (λ count. ((oid : TheOid)
        → IsCandidate (V.entries values.now) label op value.now oid → ⊥) → ⊥) }
{
    let Some(label) = label else {
        return None;
    };
    let count = values.probe_count(label, op, value);
    if count == 0 {
        return None;
    }
    Some(count)
}
