ghost use Rattle.std.specs.Prelude.{◌≡◌, ◌+◌, ◌<◌, ◌^◌, List, ◌++◌, length, map, take, IfOk, OnOk};
ghost use Rattle.lorel_bound.specs.Bound.{range_tree, bound_tree};
ghost use Rattle.lorel_bound.specs.Runnable.{IsRunnable};
ghost use Rattle.lorel_bound.specs.Plans.{StepTree, step_tree, from_value, backward, check};
ghost use Rattle.lorel_bound.specs.Plans.{along, back_steps, bottom_steps, tests};
ghost use Rattle.planner.specs.inside.Probes.{probe_tree};
ghost use Rattle.planner.specs.inside.Stepping.{step_by};

use crate::beginnings::Beginning;
use crate::probes::Probe;
use lore_base::{Label, NoMemory, Oid, TryCopy};
use lorel_bound::{Bound, PlanStep, PlanSteps, Range, Start};
use std::alloc::Global;

// The step along a range, which fills this slot; where the guide is asked, it tells what is reached
// from a name.
fn step_along(alloc: Global, range: &Range, slot: u32, guided: bool) -> Result<PlanStep, NoMemory>
    ensures { IfOk result (λ step. step_tree step
        ≡ step_by guided (range_tree range.now).start (range_tree range.now).path slot) }
{
    let path = range.path.try_copy(alloc)?;
    match range.start {
        Start::Named(named) if guided => Ok(PlanStep::FromGuide { named, path, slot }),
        start => Ok(PlanStep::Forward { start, path, slot }),
    }
}

/// Puts behind the steps those along these ranges, the first of which fills this slot.
pub(crate) fn push_along(
    alloc: Global,
    ranges: &[Range],
    slot: u32,
    guided: bool,
    steps: &mut PlanSteps,
) -> Result<(), NoMemory>
    requires { slot + length ranges.now < 2 ^ 32 }
    ensures { OnOk result ((further : List StepTree) → map step_tree steps.new ++ further
        ≡ map step_tree steps.old
        ++ along (step_by guided) slot (map range_tree ranges.now) further) }
{
    let mut next = slot;
    'ranges: for range in ranges {
        let step = step_along(alloc, range, next, guided)?;
        steps.push(step)?;
        next += 1;
    }
    Ok(())
}

// The step back against a range, from its slot to the one before it.
fn step_back(alloc: Global, range: &Range, parent: u32) -> Result<PlanStep, NoMemory>
    requires { parent + 1 < 2 ^ 32 }
    ensures { IfOk result (λ step. step_tree step
        ≡ backward (parent + 1) (range_tree range.now).path parent) }
{
    Ok(PlanStep::Backward {
        child: parent + 1,
        path: range.path.try_copy(alloc)?,
        parent,
    })
}

/// Puts behind the steps those back against these ranges, from the last of them to slot 0.
pub(crate) fn push_back(
    alloc: Global,
    ranges: &[Range],
    steps: &mut PlanSteps,
) -> Result<(), NoMemory>
    requires { length ranges.now < 2 ^ 32 }
    ensures { OnOk result ((further : List StepTree) → map step_tree steps.new ++ further
        ≡ map step_tree steps.old ++ back_steps 0 (map range_tree ranges.now) further) }
{
    let mut left = ranges.len();
    'ranges: while left > 0 {
        left -= 1;
        let step = step_back(alloc, &ranges[left], left as u32)?;
        steps.push(step)?;
    }
    Ok(())
}

/// The steps of a plan that begins at names, where the guide is asked or not.
pub(crate) fn steps_from_names(
    alloc: Global,
    bound: &Bound,
    guided: bool,
) -> Result<PlanSteps, NoMemory>
    requires { IsRunnable (bound_tree bound.now) }
    ensures { IfOk result (λ steps. map step_tree steps ≡ along (step_by guided) 0
        (bound_tree bound.now).ranges (tests (bound_tree bound.now).cond)) }
{
    let mut steps = PlanSteps::new(alloc);
    push_along(alloc, bound.ranges.as_slice(), 0, guided, &mut steps)?;
    push_test(bound, &mut steps)?;
    Ok(steps)
}

/// The steps of a plan that begins at values.
pub(crate) fn steps_from_values(
    alloc: Global,
    bound: &Bound,
    beginning: &Beginning,
    label: Option<Label>,
) -> Result<PlanSteps, NoMemory>
    requires runnable { IsRunnable (bound_tree bound.now) }
    requires within { beginning.now.probe.slot < length (bound_tree bound.now).ranges }
    ensures { IfOk result (λ steps. map step_tree steps
        ≡ bottom_steps beginning.now.named (probe_tree beginning.now.probe) label
        (bound_tree bound.now).ranges (tests (bound_tree bound.now).cond)) }
{
    let Some((first, others)) = bound.ranges.as_slice().split_first() else {
        unreachable!();
    };
    let slot = beginning.probe.slot;
    let (before, after) = others.split_at(slot as usize);
    let mut steps = PlanSteps::new(alloc);
    let value = value_step(alloc, &beginning.probe, label)?;
    steps.push(value)?;
    push_back(alloc, before, &mut steps)?;
    let check = check_step(alloc, first, beginning.named)?;
    steps.push(check)?;
    push_along(alloc, after, slot + 1, false, &mut steps)?;
    push_test(bound, &mut steps)?;
    Ok(steps)
}

// Puts the test of the condition behind the steps, if there is one.
fn push_test(bound: &Bound, steps: &mut PlanSteps) -> Result<(), NoMemory>
    ensures { OnOk result (map step_tree steps.new
        ≡ map step_tree steps.old ++ tests (bound_tree bound.now).cond) }
{
    match &bound.cond {
        Some(_) => steps.push(PlanStep::Filter),
        None => Ok(()),
    }
}

// The step that looks for what a comparison asks for.
fn value_step(alloc: Global, probe: &Probe, label: Option<Label>) -> Result<PlanStep, NoMemory>
    ensures { let asked = probe_tree probe.now in IfOk result (λ step. step_tree step
        ≡ from_value label asked.op asked.value asked.rest asked.slot) }
{
    Ok(PlanStep::FromValue {
        label,
        op: probe.op,
        value: probe.value.try_copy(alloc)?,
        rest: probe.rest.try_copy(alloc)?,
        slot: probe.slot,
    })
}

// The step that checks the first range against the name.
fn check_step(alloc: Global, first: &Range, named: Oid) -> Result<PlanStep, NoMemory>
    ensures { IfOk result (λ step. step_tree step ≡ check 0 (range_tree first.now).path named) }
{
    Ok(PlanStep::Check {
        child: 0,
        path: first.path.try_copy(alloc)?,
        named,
    })
}
