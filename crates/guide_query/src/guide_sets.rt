ghost use Rattle.std.specs.Prelude.{◌≡◌, ◌∷◌, [], IfOk};
ghost use Rattle.dataguide.specs.Guides.{HasEdge};
ghost use Rattle.guide_query.specs.GuideReaches.{IsMember};
ghost use Rattle.guide_query.specs.inside.GuideSets.{same_node};

use dataguide::{Guide, Node};
use lore_base::{Label, NoMemory, Oid, OidBuf};
use oem_set::OidSet;
use set_walk::SetGraph;
use std::alloc::Global;

// The nodes of a guide as a graph of sets.
#[derive(Drop)]
pub(crate) struct GuideSets<'a> {
    pub(crate) guide: &'a Guide,
}

impl<'a> SetGraph for GuideSets<'a> {
    type Node = Node;

    ghost goes = { λ sets. HasEdge sets.guide.now.nodes };

    ghost has = { λ sets. IsMember sets.guide.now.nodes };

    fn edges(&self, node: Node) -> &[(Label, Node)] {
        match self.guide.nodes().get(node.0 as usize) {
            Some(there) => there.edges.as_slice(),
            None => &[],
        }
    }

    fn members(&self, node: Node) -> &[Oid] {
        match self.guide.set(node) {
            Some(set) => set.as_slice(),
            None => &[],
        }
    }

    ghost exact = { same_node };
}

// The set of the object alone.
pub(crate) fn set_of_one(alloc: Global, oid: Oid) -> Result<OidSet, NoMemory>
    ensures { IfOk result (λ set. set ≡ oid ∷ []) }
{
    let mut oids = OidBuf::with_capacity(alloc, 1)?;
    oids.push(oid)?;
    Ok(OidSet::from_ascending(oids))
}
