//! The edges of a graph by their children: which parents an object has, and by which labels.
//!
//! Each edge is a record that leads to the next one of its child. A change comes in three calls:
//! `prepare` sorts what goes and what comes, `reserve` takes the memory for it, and `commit` puts it in
//! place and cannot fail. It takes time by what changes, and by the lists of the children concerned.
#![tactic(auto)]

pub use link_index::LinkIndex;
pub use link_plan::LinkPlan;

mod chains;
mod changes;
mod heads;
mod link;
mod link_index;
mod link_lists;
mod link_plan;
mod link_runs;
mod listing;
mod records;
