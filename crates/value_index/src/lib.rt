//! The atomic values of objects, by the labels of the edges that enter them, searched by
//! bisection.
//!
//! Each object's value stands once. Entries that name objects stand in five orders: those of whole
//! numbers, of texts, of flags, of texts that read as whole numbers, and of texts that read as
//! flags; their values are looked up. A change comes in three calls: `prepare` sorts what goes and
//! what comes, `reserve` takes the memory for it, and `commit` puts it in place and cannot fail.
#![tactic(auto)]

pub use naive_values::NaiveValues;
pub use value_index::ValueIndex;
pub use value_plan::ValuePlan;

mod bisection;
mod leaving;
mod marks;
mod naive_values;
mod runs;
mod value_index;
mod value_plan;
