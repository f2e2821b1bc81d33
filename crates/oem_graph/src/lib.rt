//! The graph of an OEM database (Abiteboul et al. 1997): objects by their numbers, and edges as records
//! in the out lists of their parents and the in lists of their children.
//!
//! A reader finds an object where it stands while numbers have no gap, or by binary search, and follows
//! its lists. A change comes in three calls: `prepare` works out what goes and what comes, `reserve`
//! takes the memory for it, and `commit` puts it in place and cannot fail. It takes time by what changes
//! and by the lists concerned.
#![tactic(auto)]

pub use edge_layers::Overlay;
pub use graph_plan::GraphPlan;
pub use graph_then::GraphThen;
pub use linked_graph::Graph;
pub use live_objects::{live_value, oid_at};

mod graph_plan;
mod graph_then;
mod linked_graph;
mod live_objects;
