//! Conditions tested on rows over a database with indexes: which objects fit a slot of a row is
//! found from the values that the condition compares and the objects that two of its paths are to
//! reach, and from there back along its paths.
//!
//! What a condition tells of slots are its clues (`member_clues`); `ends` finds the objects by one,
//! as long as `pace` allows. Where many rows would be tested by long walks, the objects for which a
//! member of the condition holds are listed first (`listing`), and rows are looked up among them
//! (`split`).
#![tactic(auto)]

pub use indexed_test::IndexedTest;
pub use listing::may_be_listed;
pub use pace::Pace;

mod ends;
mod indexed_test;
mod listing;
mod pace;
mod split;
