ghost use Rattle.lorel_bound.specs.Plans.{StepTree, step_tree};

use crate::bound::Start;
use lore_base::{Label, Listing, NoMemory, Oid, Op, Path, TryCopy, Value};
use std::alloc::Global;

/// From where the rows of a select are found.
#[derive(Clone, Copy, Debug, PartialEq, Eq)]
pub enum PlanKind {
    /// From the names down, along the edges.
    Top,
    /// From the values that a comparison asks for, against the edges.
    Bottom,
    /// By the guide from the names, and on along the edges.
    Guided,
}

/// A step of a plan. Most steps put objects into a slot; some only test what is there.
#[derive(Drop)]
pub enum PlanStep {
    /// The slot gets what the path reaches from the start.
    Forward {
        start: Start,
        path: Path,
        slot: u32,
    },
    /// The slot gets what the path reaches from the named object. The guide tells it.
    FromGuide {
        named: Oid,
        path: Path,
        slot: u32,
    },
    /// The slot gets the objects from which the rest reaches one that has such a value, where an edge
    /// with the label enters that one. There are none where no label has the text that is asked for.
    FromValue {
        label: Option<Label>,
        op: Op,
        value: Value,
        rest: Path,
        slot: u32,
    },
    /// The parent's slot gets the objects from which the path reaches that in the child's slot.
    Backward {
        child: u32,
        path: Path,
        parent: u32,
    },
    /// The path reaches the object in the slot from the named object.
    Check {
        child: u32,
        path: Path,
        named: Oid,
    },
    /// The condition of the select holds.
    Filter,
}

/// The steps of a plan, in the order in which they are taken.
pub type PlanSteps = Listing<PlanStep>;

/// How the rows of a bound select are found.
#[derive(Drop)]
pub struct Plan {
    pub kind: PlanKind,
    /// How many objects have a value that the comparison asks for; None where a bottom plan can't be.
    pub candidates: Option<u32>,
    /// How many objects the comparison's range reaches from the name; None where a bottom plan can't
    /// be.
    pub found: Option<u32>,
    pub steps: PlanSteps,
}

impl TryCopy for PlanStep {
    ghost Seen = { StepTree };

    ghost seen = { step_tree };

    fn try_copy(&self, alloc: Global) -> Result<Self, NoMemory> {
        match self {
            PlanStep::Forward { start, path, slot } => Ok(PlanStep::Forward {
                start: *start,
                path: path.try_copy(alloc)?,
                slot: *slot,
            }),
            PlanStep::FromGuide { named, path, slot } => Ok(PlanStep::FromGuide {
                named: *named,
                path: path.try_copy(alloc)?,
                slot: *slot,
            }),
            PlanStep::FromValue {
                label,
                op,
                value,
                rest,
                slot,
            } => Ok(PlanStep::FromValue {
                label: *label,
                op: *op,
                value: value.try_copy(alloc)?,
                rest: rest.try_copy(alloc)?,
                slot: *slot,
            }),
            PlanStep::Backward {
                child,
                path,
                parent,
            } => Ok(PlanStep::Backward {
                child: *child,
                path: path.try_copy(alloc)?,
                parent: *parent,
            }),
            PlanStep::Check { child, path, named } => Ok(PlanStep::Check {
                child: *child,
                path: path.try_copy(alloc)?,
                named: *named,
            }),
            PlanStep::Filter => Ok(PlanStep::Filter),
        }
    }
}
