//! The facts of a database that a history keeps (after DOEM, Chawathe, Abiteboul and Widom 1998):
//! names with their objects, objects with their values, and edges. What they weigh, sets of them,
//! and the runs of successive moments at which they stand.
#![tactic(auto)]

pub use fact_sets::{copied_facts, held_facts, sort_facts, weigh, without};
pub use facts::{Fact, NameFact, ObjectFact};
pub use runs::{Run, STANDING};

mod fact_sets;
mod facts;
mod runs;
mod values;
