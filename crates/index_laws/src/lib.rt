//! Laws of the entries of indexes: what one edge more or less and a changed value do to them, and
//! that there is one list of them.
#![tactic(auto)]

pub mod laws;
