//! The law of live views: a change that doesn't concern a select whose paths all start somewhere
//! leaves its answer.
#![tactic(auto)]

pub mod laws;
