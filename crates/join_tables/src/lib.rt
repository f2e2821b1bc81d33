//! Tables that rows are joined by: under whole numbers, the objects that lead along a word to a
//! value equal to the number.
//!
//! A table is made once, by a probe of the values under a label (`numbers`) and a walk back from
//! all that have a number (`leading`). It is then asked of many rows (`table`).
#![tactic(auto)]

pub use table::JoinTable;

mod leading;
mod numbers;
mod table;
