//! Whole rounds that part the nodes of a graph into blocks by backward bisimulation, from a few
//! large blocks on (Milo and Suciu 1999, the 1-index). Nodes are the numbers below a length, and
//! each has a row of labels and parents, those of the edges that enter it.
//!
//! A whole round compares each node with the head of its block: by its kind, and by the labels and
//! the blocks that edges enter it from. A round in which all agree is the last one.
#![tactic(auto)]

pub use gathering::gathered;
pub use levels::levels_of;
pub use partition::Partition;
pub use renumbering::Fresh;
pub use rounds::{first_round, one_block, settled};
pub use signing::Row;

mod gathering;
pub mod laws;
mod levels;
mod partition;
mod renumbering;
mod rounds;
mod signing;
