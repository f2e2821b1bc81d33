//! What the members of a condition tell of the object in a slot of a row, as clues: paths from it to
//! values and objects that indexes find.
//!
//! `clues` has what a clue is, and reads them off a bound condition; `sides` reads them off the two
//! sides of a comparison; `choosing` tells which of them to go by, where some slots are filled.
#![tactic(auto)]

pub use choosing::{MOST_ENDS, clue_by_value, is_asked, knows_some};
pub use clues::{Clue, Comparison, End, Given, Meeting, clues_of};
pub use sides::{is_probed, slot_at};

mod choosing;
mod clues;
mod sides;
