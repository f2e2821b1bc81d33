//! The upkeep of a guide: what it becomes is planned from what it is and what its graph lost and
//! gained, within a bound on reads; and it becomes what was planned, in place.
#![tactic(auto)]

pub use upkeep::{commit, plan, reserve};

mod upkeep;
