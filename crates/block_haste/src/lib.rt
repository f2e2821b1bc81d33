//! The partition of a graph's nodes into blocks by backward bisimulation (Milo and Suciu 1999, the
//! 1-index), hastened: between a first whole round and the last ones come rounds that look only at
//! edges whose parents got new numbers.
//!
//! These rounds keep counts of the other edges, and give a part with more than half of the nodes
//! of its block's list the block's number, so that a node gets another one only with a list of half
//! the length. They tell parts by hashes, so that some nodes may stay together that belong apart:
//! whole rounds part those.
#![tactic(auto)]

pub use refining::refined;

mod exchanging;
mod graph;
mod hastening;
mod marking;
mod moving;
mod recounting;
mod refining;
mod starting;
mod tally;
