//! The lines that tell what differs between two moments of a database.
#![tactic(auto)]

pub use lines::change_lines;

mod lines;
