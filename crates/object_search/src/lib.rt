//! Which objects walks reach from others: one search, over a graph whose reads are counted, or over
//! any edges that can be listed by the object that they leave.
#![tactic(auto)]

pub use graph_arcs::GraphArcs;
pub use lower_parents::noted_as_led;
pub use out_arcs::OutArcs;
pub use reached::reached_from;
pub use sorted_edges::SortedEdges;

mod children;
mod graph_arcs;
mod lower_parents;
mod met;
mod out_arcs;
mod reached;
mod sorted_edges;
