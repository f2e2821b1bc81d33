//! Conditions tested on rows: whether a bound condition holds of the objects in a row's slots.
//!
//! A path of the condition goes on from an object that is fixed, and a comparison holds where some of
//! the objects that it reaches compare so (Abiteboul et al. 1997, path expressions in conditions).
//! `Test::ready` makes the paths ready once for many rows. Where a path is plain labels one after
//! another, the rows are then tested by comparing numbers of labels.
#![tactic(auto)]

pub use bound_test::Test;
pub use slots::{in_slot, is_marked};

mod bound_test;
mod comparisons;
mod conditions;
mod early;
mod found;
mod known_starts;
mod making_ready;
mod meeting;
mod ready_conds;
mod ready_routes;
mod slots;
mod subject;
