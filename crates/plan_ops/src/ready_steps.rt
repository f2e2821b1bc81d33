ghost use Rattle.std.specs.Prelude.{◌≡◌, map, All, IsTrue, IfOk};
ghost use Rattle.lorel_bound.specs.Plans.{filter, step_tree};
ghost use Rattle.plan_laws.specs.Steps.{slot_of};
ghost use Rattle.plan_laws.specs.Orders.{CanBeReady};
ghost use Rattle.plan_ops.specs.inside.Ready.{HasFound, ready_tree};

use crate::step_objects::selected;
use index_traits::Paths;
use lore_base::{Label, NoMemory, Oid, OidBuf, Op, Path, Value};
use lorel_bound::{PlanStep, Start};
use oem_labels::LabelTable;
use product_walk::{Route, WayBack};
use std::alloc::Global;
use word_walks::{OnlyWord, only_word};

/// A step of a plan whose path is made ready once, or the guide asked, and then taken for many
/// rows.
#[derive(Drop)]
pub(crate) enum ReadyStep<'a> {
    Forward {
        start: Start,
        route: Route<'a>,
        slot: u32,
    },
    // Forward by a path that is plain labels one after another.
    AlongWord {
        start: Start,
        path: &'a Path,
        word: OnlyWord,
        slot: u32,
    },
    FromGuide {
        named: Oid,
        path: &'a Path,
        objects: OidBuf,
        slot: u32,
    },
    FromValue {
        label: Option<Label>,
        op: Op,
        value: &'a Value,
        rest: WayBack<'a>,
        slot: u32,
    },
    Backward {
        child: u32,
        way: WayBack<'a>,
        parent: u32,
    },
    Check {
        child: u32,
        way: WayBack<'a>,
        named: Oid,
    },
    Filter,
}

impl<'a> ReadyStep<'a> {
    /// The slot that the step fills.
    pub(crate) fn slot(&self) -> Option<u32>
        ensures { result ≡ slot_of (ready_tree self.now) }
    {
        match self {
            ReadyStep::Forward { slot, .. } => Some(*slot),
            ReadyStep::AlongWord { slot, .. } => Some(*slot),
            ReadyStep::FromGuide { slot, .. } => Some(*slot),
            ReadyStep::FromValue { slot, .. } => Some(*slot),
            ReadyStep::Backward { parent, .. } => Some(*parent),
            ReadyStep::Check { .. } => None,
            ReadyStep::Filter => None,
        }
    }

    /// Whether the step tests the whole condition.
    pub(crate) fn is_test(&self) -> bool
        ensures { IsTrue result → ready_tree self.now ≡ filter }
    {
        match self {
            ReadyStep::Filter => true,
            _ => false,
        }
    }

    /// Whether the step goes on from names, or from slots that were filled, along a range.
    pub(crate) fn walks_on(&self) -> bool {
        matches!(
            self,
            ReadyStep::Forward { .. } | ReadyStep::AlongWord { .. } | ReadyStep::FromGuide { .. }
        )
    }
}

/// The steps with their paths made ready, and with what the guide tells.
pub(crate) fn ready_steps<'a, P: Paths>(
    alloc: Global,
    paths: &P,
    labels: &LabelTable,
    steps: &'a [PlanStep],
) -> Result<Vec<ReadyStep<'a>>, NoMemory>
    requires { All CanBeReady (map step_tree steps.now) }
    ensures trees { IfOk result (λ ready. map ready_tree ready.items ≡ map step_tree steps.now) }
    ensures found { IfOk result (λ ready.
        All (HasFound labels.now (P.reaches paths.now)) ready.items) }
{
    let mut ready = Vec::with_capacity(alloc, steps.len())?;
    'steps: for step in steps {
        ready.push(ready_step(alloc, paths, labels, step)?)?;
    }
    Ok(ready)
}

// The step with its path made ready, and with what the guide tells.
fn ready_step<'a, P: Paths>(
    alloc: Global,
    paths: &P,
    labels: &LabelTable,
    step: &'a PlanStep,
) -> Result<ReadyStep<'a>, NoMemory>
    requires { CanBeReady (step_tree step.now) }
    ensures tree { IfOk result (λ ready. ready_tree ready ≡ step_tree step.now) }
    ensures found { IfOk result (HasFound labels.now (P.reaches paths.now)) }
{
    match step {
        PlanStep::Forward { start, path, slot } => match only_word(alloc, path, labels)? {
            Some(word) => Ok(ReadyStep::AlongWord {
                start: *start,
                path,
                word,
                slot: *slot,
            }),
            None => Ok(ReadyStep::Forward {
                start: *start,
                route: Route::new(alloc, path)?,
                slot: *slot,
            }),
        },
        PlanStep::FromGuide { named, path, slot } => Ok(ReadyStep::FromGuide {
            named: *named,
            path,
            objects: selected(alloc, paths, path, *named)?,
            slot: *slot,
        }),
        PlanStep::FromValue {
            label,
            op,
            value,
            rest,
            slot,
        } => Ok(ReadyStep::FromValue {
            label: *label,
            op: *op,
            value,
            rest: WayBack::new(alloc, rest)?,
            slot: *slot,
        }),
        PlanStep::Backward {
            child,
            path,
            parent,
        } => Ok(ReadyStep::Backward {
            child: *child,
            way: WayBack::new(alloc, path)?,
            parent: *parent,
        }),
        PlanStep::Check { child, path, named } => Ok(ReadyStep::Check {
            child: *child,
            way: WayBack::new(alloc, path)?,
            named: *named,
        }),
        PlanStep::Filter => Ok(ReadyStep::Filter),
    }
}
