//! Which objects of an OEM database vanish with a change: those that no name walks to then.
//!
//! What was there can vanish only below a cut: where an edge is lost or a name leaves its object. So
//! the objects below cuts and the made ones are looked at, and none beside them is read.
#![tactic(auto)]

pub use dead::dead_objects;

mod below;
mod cuts;
mod dead;
mod doubts;
pub mod laws;
mod lower_parents;
mod oid_sets;
mod old_arcs;
