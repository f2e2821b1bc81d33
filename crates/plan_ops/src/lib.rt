//! Plans carried out: the rows of a bound select, one after another, by the steps of any plan and
//! over any edges, links, values, paths and condition that can be read.
//!
//! A row is filled slot by slot: each step puts objects into a slot of a partial row, or tests it
//! (McHugh and Widom 1999, iterators over evaluation plans).
#![tactic(auto)]

pub use rows::Rows;

mod kept;
mod known_slots;
mod machine;
mod narrowing;
mod offers;
mod partial_rows;
mod ready_steps;
mod rows;
mod sources;
mod step_objects;
mod walks;
