//! How the edges, paths and values of an OEM database are read, and rows of its objects tested:
//! traits that stored and plain forms implement.
#![tactic(auto)]

pub use entries::{EntryList, ValueEntry};
pub use naive_edges::NaiveEdges;
pub use reads::{Adjacent, Links, Paths, ValueOf, Values};
pub use rows::{Row, RowTest};

mod entries;
mod naive_edges;
mod reads;
mod rows;
