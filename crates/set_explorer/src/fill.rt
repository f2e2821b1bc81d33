ghost use Rattle.std.specs.Prelude.{◌≡◌, ℕ, length, slice_get, vec_capacity};
ghost use Rattle.set_explorer.specs.Types.{Kept};
ghost use Rattle.set_explorer.specs.Nodes.{sets_of, node_number};
ghost use Rattle.set_explorer.specs.PlannedNodes.{IsOrigin, origin_set, nodes_then};
ghost use Rattle.set_explorer.specs.Fills.{CanFill};
ghost use Rattle.set_explorer.specs.HashedNodes.{HaveHashes};

use crate::nodes::{GuideNode, Node};
use crate::planned_nodes::{DeltaNode, Origin};
use lore_base::OidBuf;
use oem_set::OidSet;
use std::alloc::Global;

/// Nodes, and the hashes of their sets with the nodes, in the order of the nodes.
#[derive(Drop)]
pub struct Filled {
    pub nodes: Vec<GuideNode>,
    pub by_hash: Vec<(u64, Node)>,
}

// The set of a planned node. That of a node before is taken from it. Takes no memory.
fn take_set(alloc: Global, old: &mut Vec<GuideNode>, origin: Origin) -> OidSet
    requires { IsOrigin old.old.items origin }
    ensures set { result ≡ origin_set old.old.items origin }
    ensures len { length old.new.items ≡ length old.old.items }
    ensures others { (k : ℕ) → (origin ≡ Kept (node_number k) → ⊥)
        → slice_get (sets_of old.new.items) k ≡ slice_get (sets_of old.old.items) k }
{
    match origin {
        Origin::Fresh(set) => set,
        Origin::Kept(node) => {
            let none = OidSet::from_ascending(OidBuf::new(alloc));
            std::mem::replace(&mut old[node.0 as usize].set, none)
        }
    }
}

/// Makes the planned nodes, in their order, with the sets of those that are kept: these are moved from the nodes
/// before. Takes no memory but the room that is given.
pub fn fill_nodes(
    mut old: Vec<GuideNode>,
    nodes: Vec<DeltaNode>,
    mut room: Vec<GuideNode>,
    mut by_hash: Vec<(u64, Node)>,
) -> Filled
    requires { CanFill old.items nodes.items room.items (vec_capacity room) by_hash.items
        (vec_capacity by_hash) }
    ensures nodes { result.nodes.items ≡ nodes_then old.items nodes.items }
    ensures hashes { HaveHashes result.by_hash.items result.nodes.items }
{
    let alloc = *old.allocator();
    'nodes: for planned in nodes {
        let DeltaNode { origin, edges } = planned;
        let set = take_set(alloc, &mut old, origin);
        by_hash.push_reserved((set.hash64(), Node(room.len() as u32)));
        room.push_reserved(GuideNode { set, edges });
    }
    Filled {
        nodes: room,
        by_hash,
    }
}
