//! Walks along one word: where a path is plain labels one after another, the numbers of these are
//! looked up once, and the objects that it reaches are found by comparing them.
//!
//! The lists that a walk goes through are kept for the next one.
#![tactic(auto)]

pub use only_words::{OnlyWord, only_word};
pub use reached::Reached;

mod levels;
mod look_ups;
mod only_words;
mod reached;
