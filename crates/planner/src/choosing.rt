ghost use Rattle.std.specs.Prelude.{◌≡◌, ◌≤◌, ℕ, List, length, map, None, IfOk};
ghost use Rattle.lore_base.specs.TargetSets.{ListsInOrder};
ghost use Rattle.lorel_bound.specs.Bound.{bound_tree};
ghost use Rattle.lorel_bound.specs.Runnable.{IsRunnable};
ghost use Rattle.lorel_bound.specs.Plans.{Probe as TheProbe, CanBeBottom, path_to, IsLabelOf};
ghost use Rattle.lorel_bound.specs.Plans.{IsPlanOf, AreStepsOf, step_tree};
ghost use Rattle.planner.specs.Types.{Oid as TheOid};
ghost use Rattle.lorel_bound.specs.declared.plans.PlanKind.TheVariants.{Top as TheTop, Guided as TheGuided};
ghost use Rattle.planner.specs.Choices.{AreCounts, kind_by};
ghost use Rattle.planner.specs.inside.Probes.{probe_tree};

use crate::beginnings::{Beginning, beginning_of};
use crate::counting::{candidate_count, reached_count};
use crate::settings::Setting;
use crate::stepping::{steps_from_names, steps_from_values};
use index_traits::{Paths, Values};
use lore_base::{Label, Mode, NoMemory};
use lorel_bound::{Bound, Plan, PlanKind, PlanSteps};
use oem_labels::LabelTable;
use std::alloc::Global;

/// The plan of a bound select in this mode, where there are so many objects and the guide has so
/// many nodes. No edge is read.
///
/// A bottom plan can be where the ranges are a chain from a name, and the condition, or the first
/// member of its topmost `and` that does, compares a path from one of them with an atom by `=`,
/// `<`, `<=`, `>` or `>=`, the path ending in a plain label. Then it is counted how many objects
/// have such a value (`candidates`) and how many that range reaches from the name (`found`). In
/// mode auto the plan is a bottom plan where it begins with fewer objects, else guided where the
/// guide has no more nodes than there are objects, else from the top.
///
/// The paths tell no more objects of the range that is counted than there are.
pub fn choose<V: Values, P: Paths>(
    alloc: Global,
    bound: &Bound,
    mode: Mode,
    values: &V,
    paths: &P,
    labels: &LabelTable,
    objects: u32,
    nodes: u32,
) -> Result<Plan, NoMemory>
    requires runnable { IsRunnable (bound_tree bound.now) }
    requires few { (named : TheOid) (probe : TheProbe) (oids : List TheOid)
        → CanBeBottom (bound_tree bound.now) named probe
        → ListsInOrder (P.reaches paths.now (path_to (bound_tree bound.now) probe) named) oids
        → length oids ≤ objects }
    ensures counts { let entries = V.entries values.now in let reaches = P.reaches paths.now in
        IfOk result (λ plan.
        AreCounts labels.now entries reaches (bound_tree bound.now) plan.candidates plan.found) }
    ensures kind { IfOk result (λ plan.
        plan.kind ≡ kind_by mode plan.candidates plan.found nodes objects) }
    ensures steps { IfOk result (IsPlanOf labels.now (bound_tree bound.now)) }
{
    let setting = Setting {
        mode,
        objects,
        nodes,
    };
    let Some(beginning) = beginning_of(bound) else {
        return plan_from_names(alloc, bound, setting);
    };
    let label = labels.find(beginning.probe.label);
    let candidates = candidate_count(values, label, &beginning.probe);
    let found = reached_count(alloc, bound, &beginning, paths)?;
    let kind = setting.kind(Some(candidates), Some(found));
    let steps = steps_of_kind(alloc, bound, kind, &beginning, label)?;
    Ok(Plan {
        kind,
        candidates: Some(candidates),
        found: Some(found),
        steps,
    })
}

/// The plan that walks forward from names along each range in turn, whatever else a graph has.
pub fn forward_plan(alloc: Global, bound: &Bound) -> Result<Plan, NoMemory>
    requires { IsRunnable (bound_tree bound.now) }
    ensures kind { IfOk result (λ plan. plan.kind ≡ TheTop) }
    ensures steps { (texts : List (List ℕ)) → IfOk result (IsPlanOf texts (bound_tree bound.now)) }
{
    Ok(Plan {
        kind: PlanKind::Top,
        candidates: None,
        found: None,
        steps: steps_from_names(alloc, bound, false)?,
    })
}

/// The plan that mode guided chooses: it takes what is told of the paths along each range in turn.
pub fn guided_plan(alloc: Global, bound: &Bound) -> Result<Plan, NoMemory>
    requires { IsRunnable (bound_tree bound.now) }
    ensures kind { IfOk result (λ plan. plan.kind ≡ TheGuided) }
    ensures steps { (texts : List (List ℕ)) → IfOk result (IsPlanOf texts (bound_tree bound.now)) }
{
    Ok(Plan {
        kind: PlanKind::Guided,
        candidates: None,
        found: None,
        steps: steps_from_names(alloc, bound, true)?,
    })
}

// The plan of a bound select that can have none from the bottom.
fn plan_from_names(alloc: Global, bound: &Bound, setting: Setting) -> Result<Plan, NoMemory>
    requires { IsRunnable (bound_tree bound.now) }
    ensures counts { IfOk result (λ plan. (plan.candidates ≡ None) × (plan.found ≡ None)) }
    ensures kind { IfOk result (λ plan.
        plan.kind ≡ kind_by setting.mode None None setting.nodes setting.objects) }
    ensures steps { (texts : List (List ℕ)) → IfOk result (IsPlanOf texts (bound_tree bound.now)) }
{
    let kind = setting.kind(None, None);
    let steps = steps_from_names(alloc, bound, kind == PlanKind::Guided)?;
    Ok(Plan {
        kind,
        candidates: None,
        found: None,
        steps,
    })
}

// The steps of a plan of this kind, where it can be a bottom plan.
fn steps_of_kind(
    alloc: Global,
    bound: &Bound,
    kind: PlanKind,
    beginning: &Beginning,
    label: Option<Label>,
) -> Result<PlanSteps, NoMemory>
    requires runnable { IsRunnable (bound_tree bound.now) }
    requires can { CanBeBottom (bound_tree bound.now) beginning.now.named
        (probe_tree beginning.now.probe) }
    ensures { let asked = probe_tree beginning.now.probe in
        (texts : List (List ℕ)) → IsLabelOf texts asked.label label → IfOk result (λ steps.
        AreStepsOf texts (bound_tree bound.now) kind (map step_tree steps)) }
{
    match kind {
        PlanKind::Top => steps_from_names(alloc, bound, false),
        PlanKind::Guided => steps_from_names(alloc, bound, true),
        PlanKind::Bottom => steps_from_values(alloc, bound, beginning, label),
    }
}
