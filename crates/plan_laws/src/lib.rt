//! What the steps of a plan ask, and laws of plans: whatever the order of their steps, they
//! describe the same rows.
#![tactic(auto)]

pub mod laws;
