//! The edges of a graph as records in a slab: each stands in the out list of its parent and in the in
//! list of its child, both in ascending order and linked by keys, and each object has the heads of
//! both.
//!
//! A change takes time by what it changes: a record is put at its place in a list, or taken from it,
//! and the others stay where they are. In a long list the place is found by a look at records all over
//! the slab, and a short walk from the best of them.
#![tactic(auto)]

pub use commits::commit_edges;
pub use links::Link;
pub use lists::{push_list, push_records};
pub use objects::{ObjectRecord, are_below, has_list, place_of};
pub use records::EdgeRecord;
pub use sides::{Side, Way};
pub use sifts::{Sifted, count_there, sift};

mod chains;
mod changes;
mod commits;
mod links;
mod lists;
mod objects;
mod probes;
mod records;
mod sides;
mod sifts;
mod walks;
