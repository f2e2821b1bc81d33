ghost use Rattle.std.specs.Prelude.{◌≡◌, ◌<◌, ◌+◌, ℕ, true, length, map, take, drop};
ghost use Rattle.std.specs.Prelude.{Some, Contains, slice_get, IsTrue};
ghost use Rattle.lorel_bound.specs.Plans.{filter};
ghost use Rattle.plan_ops.specs.inside.Ready.{ready_tree};
ghost use Rattle.plan_ops.specs.inside.Narrowing.{IsFilledBy};

use crate::ready_steps::ReadyStep;
use lore_base::limits::RANGES;
use row_hints::mark;

/// The slots that the steps before this one fill.
pub(crate) fn slots_before(ready: &[ReadyStep<'_>], at: usize) -> [bool; RANGES]
    requires { at < length ready.now }
    ensures { (slot : ℕ) → slice_get result slot ≡ Some true
        → IsFilledBy (take at (map ready_tree ready.now)) slot }
{
    let mut known = [false; RANGES];
    'steps: for place in 0..at {
        mark(&mut known, ready[place].slot());
    }
    known
}

/// Whether the plan ends in a test of the whole condition, which this step isn't.
pub(crate) fn is_tested_later(ready: &[ReadyStep<'_>], at: usize) -> bool
    requires { at < length ready.now }
    ensures { IsTrue result → Contains (drop (at + 1) (map ready_tree ready.now)) filter }
{
    let Some(last) = ready.last() else {
        return false;
    };
    if at + 1 == ready.len() {
        return false;
    }
    last.is_test()
}

/// Whether the step behind this one fills a slot.
pub(crate) fn is_filled_next(ready: &[ReadyStep<'_>], at: usize) -> bool
    requires { at < length ready.now }
{
    match ready.get(at + 1) {
        Some(step) => step.slot().is_some(),
        None => false,
    }
}
