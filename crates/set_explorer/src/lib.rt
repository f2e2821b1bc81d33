//! The exploring of the target sets of a database, breadth first from its names, as the nodes of its strong
//! DataGuide (Goldman and Widom 1997).
//!
//! The graph is read as an automaton over labels, and made deterministic. After a change the nodes that
//! stood before tell the steps of sets that kept their edges, and of those that lost some where it is told
//! what else leads to the children of these; the others are read.
#![tactic(auto)]

pub use changes::{Change, Entered};
pub use exploring::{Explored, explore_sets};
pub use faults::GuideFault;
pub use fill::{Filled, fill_nodes};
pub use gains::parents_of;
pub use nodes::{EdgeList, GuideNode, GuideNodes, Node, find_node, next_by, node_at};
pub use planned_nodes::{DeltaNode, Origin};

mod changes;
mod explore;
mod exploring;
mod faults;
mod fill;
mod found;
mod gains;
mod growth;
mod hash_lists;
mod losses;
mod nodes;
mod planned_nodes;
