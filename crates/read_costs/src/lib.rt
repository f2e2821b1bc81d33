//! What it costs to read what a change concerns: what lies below its cuts and near it, which target
//! sets it touches, sums of costs that are told by what was paid for, and the work of a change.
#![tactic(auto)]

pub use entering::entering_edges;

mod entering;
pub mod laws;
