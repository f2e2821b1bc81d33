//! Laws of dumps: what `dump` prints for a database is read back as the tree of that database.
#![tactic(auto)]

pub mod laws;
