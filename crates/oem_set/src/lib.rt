//! Sets of objects, as lists in ascending order with a hash, and sets of places.
#![tactic(auto)]

pub use bit_set::BitSet;
pub use oid_set::OidSet;

mod bit_set;
mod hashes;
mod oid_set;
