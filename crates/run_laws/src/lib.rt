//! Laws of runs of scripts: a script has one list of parts, and parts have a run, and one.
#![tactic(auto)]

pub mod laws;
