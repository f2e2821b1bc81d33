//! The parser of what statements are made of: names, labels, literals, paths and selects.
//!
//! Each call reads at a place in the tokens (`cursor`), goes past what it read, and gives what a
//! plain function on lists of tokens finds there (`specs/Names`, `Literals`, `Paths`, `Conditions`,
//! `Selects`). Behind a fault the place is no longer told. That those functions find what the
//! grammar of `lorel_trees` derives, all of it and nothing else, is proved in `proofs/`; `parse` of
//! `lorel_parse` rests on it.
#![tactic(auto)]

pub use cursor::Cursor;
pub use faults::ParseFault;
pub use literals::{literal, local, new_value};
pub use names::{label, name, sees_name};
pub use paths::rooted;
pub use selects::{select, tail};

mod conditions;
mod cursor;
mod faults;
mod literals;
mod names;
mod paths;
mod selects;
