//! What a change does to the records of a graph: which objects and edges go with it and which come,
//! worked out from those that there are, and how objects are put in place and taken out.
//!
//! All of it is over ascending object records, a slab of edge records, and the lists of a change, of
//! which it is told which objects are left dead. It takes time by what changes and by the lists
//! concerned.
#![tactic(auto)]

pub use dead_oids::is_dead;
pub use deltas::{differing, names_only_in, values_gone};
pub use edge_plans::{EdgePlan, planned_edges};
pub use object_changes::{count_objects, drop_objects, put_objects};
pub use object_lists::{value_in, value_of};
pub use objects_then::objects_given;

mod dead_oids;
mod deltas;
mod edge_plans;
mod edges_then;
mod object_changes;
mod object_lists;
mod objects_then;
