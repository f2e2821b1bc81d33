//! The history that is kept of a store: how one begins, and a change that is made together with
//! the moment that it leads to.
#![tactic(auto)]

pub use beginning::begun;
pub use changes::make_change;
pub use objects::live_objects;

mod beginning;
mod changes;
mod objects;
