//! What is told early of rows that are filled slot by slot: of the objects for a slot those are
//! left out with which no row can come.
//!
//! Lists of the objects that fit leave others out, and so do tests of a row that isn't whole yet.
//! Both cost time; so what was learned of each slot is kept, and decides which of them are worth
//! it.
#![tactic(auto)]

pub use hints::Hints;
pub use known::mark;
pub use learned::{Learned, MANY, leaves_all};
pub use lists::is_among;
pub use narrowing::{RowPlace, is_left_out, kept_or, narrowed};
pub use tallies::Tally;
pub use told::Told;

mod hints;
mod known;
mod learned;
mod lists;
mod narrowing;
mod tallies;
mod told;
