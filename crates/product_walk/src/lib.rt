//! Paths searched in the graph: the objects that a path reaches from an object, and those from which
//! it reaches some of given objects, over any edges that can be read.
//!
//! Both search the product of the graph with the path's automaton (Mendelzon and Wood 1995): objects
//! under the states that the automaton is in there, so that a search ends on every graph, cycles
//! among them. A `Route` and a `WayBack` make a path ready once, for walks along the edges and against
//! them, and spare the search where a path is labels alone.
#![tactic(auto)]

pub use naive_paths::NaivePaths;
pub use routes::Route;
pub use searches::{backward, forward};
pub use ways_back::WayBack;

mod direction;
mod label_paths;
mod label_step;
mod naive_paths;
mod product;
mod routes;
mod searches;
mod state_marks;
mod ways_back;
