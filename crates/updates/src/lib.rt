//! What an update of an OEM database changes, over the rows of its select.
#![tactic(auto)]

pub use faults::UpdateFault;
pub use update_changes::{PairList, changes_of};

mod assignments;
mod copies;
mod faults;
mod limit_tests;
mod links;
mod row_tests;
mod stamps;
mod update_changes;
