//! What is bound, run and answered: bound selects, plans and answers as data, below those who bind,
//! choose plans, carry them out and find answers.
//!
//! A bound select (`bound`) ranges over slots, which hold objects; its cells and its condition
//! (`conditions`) go by slots and by objects of names. A plan (`plans`) says by which steps its rows
//! are found. A row of an answer consists of cells (`cells`); an answer (`answers`) is the ascending
//! list of its rows. `specs/` say which rows a bound select has, and which plans are plans of it.
#![tactic(auto)]

pub use answers::{Answer, AnswerRow};
pub use bound::{Bound, CellList, CellOf, Range, RangeList, Start};
pub use cells::Cell;
pub use conditions::{BoundCond, BoundCondList, BoundOperand, BoundPath, BoundStart};
pub use plans::{Plan, PlanKind, PlanStep, PlanSteps};

mod answers;
mod bound;
mod cells;
mod conditions;
mod plans;
