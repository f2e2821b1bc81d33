//! Laws of what statements answer and leave: it is determined, and there always is some.
#![tactic(auto)]

pub mod laws;
