//! The table of labels of an OEM database: each text has the number of its place, and a pattern
//! tells which labels fit it.
//!
//! New texts come in two calls: `plan_new` takes the memory for them, and `commit_new` puts them in
//! place and cannot fail.
#![tactic(auto)]

pub use guesses::Guesses;
pub use label_plan::LabelPlan;
pub use label_table::LabelTable;
pub use patterns::fits;

mod guesses;
mod label_plan;
mod label_table;
mod patterns;
