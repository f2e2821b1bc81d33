//! Binding: from the text of a select to ranges whose starts are objects and slots.
//!
//! A select ranges over the objects that its paths reach. `bind` reads its text, tells why it is
//! refused, if it is, and gives each of its fused ranges a slot; its cells and its condition then go
//! by slots (Abiteboul et al. 1997, range variables and path expressions). What it gives, a bound
//! select with its cells and plans of it, is passed on from `lorel_bound`.
#![tactic(auto)]

pub use binding::bind;
pub use faults::BindFault;
pub use lorel_bound::{
    Bound, BoundCond, BoundCondList, BoundOperand, BoundPath, BoundStart, Cell, CellList, CellOf,
    Plan, PlanKind, PlanStep, PlanSteps, Range, RangeList, Start,
};

mod binding;
mod causes;
mod conditions;
mod faults;
mod slots;
