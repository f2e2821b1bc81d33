//! Automata of path expressions (Abiteboul et al. 1997): they read words of labels and accept those
//! that the path spells.
//!
//! A state stands before each leaf of the path, and one at its end, as in Glushkov's construction:
//! so 64 leaves need 65 states, and a set of states is one word. A [`Mover`] moves an automaton over
//! many labels and compares the text of each once.
#![tactic(auto)]

pub use automata::Automaton;
pub use laws::stepping_accepts;
pub use leaves::Leaf;
pub use mover::Mover;
pub use state_sets::{END, States};

mod automata;
mod compile;
mod entries;
mod last_parts;
mod laws;
mod leaves;
mod mover;
mod state_sets;
