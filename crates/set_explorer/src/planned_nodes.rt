use crate::nodes::{EdgeList, Node};
use oem_set::OidSet;

/// Where the set of a planned node is from: a node of the guide before, or none had it.
#[derive(Drop)]
pub enum Origin {
    Kept(Node),
    Fresh(OidSet),
}

/// A planned node of a guide: where its set is from, and for each label that leaves it the node of
/// the step, by its place among the planned ones.
#[derive(Drop)]
pub struct DeltaNode {
    pub origin: Origin,
    pub edges: EdgeList,
}
