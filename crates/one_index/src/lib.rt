//! The 1-index (Milo and Suciu 1999): the objects of a database in blocks by backward
//! bisimulation, the graph of these blocks, and paths that are told by walking it.
//!
//! Objects of one block have the same names, and edges with the same labels enter them from the
//! same blocks. So a path from a named object reaches all objects of a block or none of them.
#![tactic(auto)]

pub use block_paths::BlockPaths;
pub use blocks::{Block, Blocks};

mod block_paths;
mod blocks;
mod building;
mod filling;
mod kinds;
pub mod laws;
mod linking;
mod places;
mod rows;
