use crate::nodes::GuideNodes;
use lore_base::Edge;
use oem_set::OidSet;

/// Objects, and in ascending order all edges that enter them.
#[derive(Drop)]
pub struct Entered<'a> {
    pub oids: &'a OidSet,
    pub edges: &'a [Edge],
}

/// A graph, and the nodes of the guide that stood before it changed: the edges that were lost leave dirty
/// objects, and the fresh ones leave the grown objects. Of the objects that are told, the entering edges
/// are all edges that enter them afterwards; these leave the back objects. Each list of edges ascends.
#[derive(Drop)]
pub struct Change<'a, A> {
    pub guide: GuideNodes<'a>,
    pub lost: &'a [Edge],
    pub dirty: &'a OidSet,
    pub fresh: &'a [Edge],
    pub grown: &'a OidSet,
    pub told: &'a OidSet,
    pub entering: &'a [Edge],
    pub back: &'a OidSet,
    pub after: &'a A,
}
