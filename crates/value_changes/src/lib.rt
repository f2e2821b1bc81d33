//! Which value entries go and which come where edges are lost or fresh and values are given.
//!
//! Looked at are the objects alone that such an edge enters or such a value is given to, and read are
//! those of them that were live and have an atomic value before or afterwards.
#![tactic(auto)]

pub use differences::{EntryChanges, GraphChanges, entry_changes};

mod bisection;
mod differences;
mod entered;
mod entries;
mod pairs;
mod touched;
mod valued;
