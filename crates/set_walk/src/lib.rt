//! Paths over graphs of sets: graphs whose nodes have objects, such as a guide or the blocks of an
//! index. What a path reaches is told by walking such a graph in place of the edges of the
//! objects, so that none of these is read (Goldman and Widom 1997, Milo and Suciu 1999).
#![tactic(auto)]

pub use set_graph::SetGraph;
pub use set_walk::{count_by_sets, select_by_sets};

mod ends;
mod set_graph;
mod set_walk;
mod state_marks;
