//! Conditions that compare slots of a row with one another, tested with the help of tables: where
//! one slot leads to a whole number, a table has the objects that fit another slot.
//!
//! `worth` tells of a condition whether tables may pay; `members` makes them for its comparisons;
//! `joins` has what one tells of a row; `joined_test` is a test that has some.
#![tactic(auto)]

pub use indexed::Indexed;
pub use joined_test::JoinedTest;
pub use worth::{fewest_of, may_be_joined};

mod indexed;
mod joined_test;
mod joins;
mod members;
mod worth;
