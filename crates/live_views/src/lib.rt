//! Live views: selects that are kept under names, with rows that stand until a change concerns
//! them.
//!
//! A change concerns a select where it turns a name that one of its paths starts at, an edge whose
//! label one of their steps takes, or a value, where the select compares values
//! (`specs/Concerns`). What a select looks at is found once, when it is kept; so `Views::marks`,
//! which tells the views that a change concerns, only goes over lists.
#![tactic(auto)]

pub use marks::Marks;
pub use views::Views;

mod comparisons;
mod concerning;
mod labels;
mod looks;
mod marks;
mod shared;
mod steps;
mod touched;
mod view;
mod views;
