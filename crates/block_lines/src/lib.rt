//! The lines that show the blocks of a graph.
#![tactic(auto)]

pub use lines::block_lines;

pub mod laws;
mod lines;
