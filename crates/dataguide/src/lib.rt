//! The strong DataGuide of a database (Goldman and Widom 1997): every label path of the database
//! once, exactly.
//!
//! Its nodes are the target sets of label paths, and its edges the steps from one set to the next:
//! the database's graph, read as an automaton over labels, made deterministic. Nodes stand in the
//! order of their least label paths, so a database has one guide.
#![tactic(auto)]

pub use data_guide::Guide;
pub use delta::GuideDelta;
pub use set_explorer::{DeltaNode, EdgeList, Entered, GuideFault, GuideNode, Node, Origin};

mod data_guide;
mod delta;
mod entries;
mod guide_plans;
pub mod laws;
