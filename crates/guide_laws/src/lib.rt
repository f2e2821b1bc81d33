//! Laws of target sets and guides: that they exist, and that it can be told whether they keep the
//! limits.
#![tactic(auto)]

pub mod laws;
