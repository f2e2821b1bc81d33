//! The choice of a plan: from where the rows of a bound select are found, and by which steps.
//!
//! A search from the top begins at a name; one from the bottom at the values that a comparison asks
//! for (McHugh and Widom 1999). `choose` counts the objects of both beginnings, reads no edge for
//! it, and goes by the mode. `forward_plan` counts nothing.
#![tactic(auto)]

pub use choosing::{choose, forward_plan, guided_plan};
pub use probes::last_label;

mod beginnings;
mod choosing;
mod counting;
pub mod laws;
mod probes;
mod settings;
mod stepping;
