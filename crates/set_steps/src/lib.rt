//! The steps of sets of objects: the edges that leave the members of a set, grouped by their labels
//! into the sets that they lead to.
//!
//! Edges are dealt to a bucket for each label (`buckets`), of which sets are made (`bucket_sets`). Those
//! of one object with few for each label, and those with too many labels for that, are put in order
//! where they aren't (`arcs`), and cut into sets (`groups`).
#![tactic(auto)]

pub use rows::step_by;
pub use step_reader::StepReader;

mod arcs;
mod bucket_sets;
mod buckets;
mod children;
mod edge_runs;
mod groups;
mod rows;
mod step_reader;
