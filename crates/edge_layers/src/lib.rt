//! Edges that come and go beside the lists of a graph: what there is with them, read without a copy of
//! what stays, and the order in which new ones are put into lists.
//!
//! Edges that are lost and edges that are fresh stand in ascending order beside the lists. A reader
//! takes an object's list, leaves out what is lost, and puts in what is fresh: it takes time by the
//! list and not by the graph.
#![tactic(auto)]

pub use edge_copies::copied_edges;
pub use edge_overlay::Overlay;
pub use edge_runs::run_of;
pub use edge_sets::sifted_set;
pub use join_orders::join_order;
pub use layers::push_leaving;
pub use places::places_by_child;
pub use run_starts::RunStarts;

mod chains;
mod edge_copies;
mod edge_overlay;
mod edge_runs;
mod edge_sets;
mod entering;
mod join_orders;
mod layers;
mod places;
mod run_starts;
mod turned;
