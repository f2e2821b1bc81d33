//! Atomic values: how two values compare, and how values and labels are printed.
//!
//! A whole number and a text that reads as one compare as numbers, a flag and a text that reads as
//! one as flags (Abiteboul et al. 1997, coercion). What can't be compared is no error: the
//! comparison is false.
#![tactic(auto)]

pub use comparing::{as_flag, as_whole, compare, like};
pub use printing::{print_label, print_value};

mod comparing;
mod printing;
