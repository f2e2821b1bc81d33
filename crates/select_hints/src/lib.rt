//! Hints of a select: what its condition asks of objects that come late, asked of those that they
//! are reached from. They tell early of which objects no row comes.
//!
//! What a comparison asks of the object in a slot is asked of the object that the slot's range
//! starts at (`moved`), by the range's path and what is behind it (`joined`). The condition with
//! such members behind its own are its hints (`hints`), where its paths have few leaves with them
//! (`counted`). Whether a row is ruled out they are asked up to the first slot from which a side
//! was moved over another slot (`late`), since behind it they would walk again what was asked
//! before.
#![tactic(auto)]

pub use hints::hints_for;
pub use late::late_from;

mod counted;
mod hints;
mod joined;
mod late;
mod moved;
