//! Literals as objects and edges of an OEM database: what a literal makes, its locals resolved and
//! its objects numbered; and objects that no text stands for, generated from a number.
//!
//! A literal is laid out first: its objects have places, and its edges lead from place to place. So
//! a local can lead to an object that begins later or to one that encloses it. Numbers of labels and
//! of objects come after that, once for a load and for each parent of an update.
#![tactic(auto)]

pub use faults::{LocalFault, TextFault};
pub use generating::generated;
pub use label_numbers::LabelNumbers;
pub use layouts::{Layout, lay_out};
pub use literals::{check_locals, instantiate};
pub use parts::Part;

mod faults;
mod flat;
mod generated_edges;
mod generated_objects;
mod generating;
mod label_numbers;
mod layouts;
mod literals;
mod parts;
mod places;
