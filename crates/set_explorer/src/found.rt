ghost use Rattle.std.specs.Prelude.{◌≡◌, ◌≢◌, ℕ, ◌+◌, ◌≤◌, ◌<◌, ◌↔◌, AllPairs, [], length, map};
ghost use Rattle.std.specs.Prelude.{Some, slice_get, IsTrue, IfSome, IfNone, IfOk, IfErr, OnOk};
ghost use Rattle.std.specs.Prelude.{All, Contains};
ghost use Rattle.lore_base.specs.declared.limits.TheConstants.{CELLS as THE_CELLS};
ghost use Rattle.lore_base.specs.GuideLimits.{KeepLimits};
ghost use Rattle.set_explorer.specs.Types.{GuideNode as TheGuideNode, Fresh, Kept};
ghost use Rattle.set_explorer.specs.HashedNodes.{IsHashed};
ghost use Rattle.set_explorer.specs.Nodes.{sets_of};
ghost use Rattle.set_explorer.specs.PlannedNodes.{origin_set, IsOrigin};
ghost use Rattle.set_explorer.specs.inside.Founds.{IsFound, found_nodes, found_sets};
ghost use Rattle.set_explorer.specs.inside.Founds.{IsFreshAt, IsRoomFault, Enters, EntersAll};
ghost use Rattle.set_explorer.specs.inside.Founds.{Stops, AreStopped, target_sets};

use crate::faults::GuideFault;
use crate::hash_lists::HashLists;
use crate::nodes::{EdgeList, GuideNode, GuideNodes, Node, find_node, node_of};
use crate::planned_nodes::{DeltaNode, Origin};
use lore_base::limits::CELLS;
use lore_base::{Listing, NoMemory};
use oem_set::OidSet;
use std::alloc::Global;

// The nodes that a search has found, in the order of discovery; for each node of the guide before,
// the one that has its set; the others by the hashes of their sets; and the members of all sets
// together.
#[derive(Drop)]
pub(crate) struct Found {
    pub(crate) nodes: Vec<DeltaNode>,
    pub(crate) places: Vec<Option<Node>>,
    pub(crate) fresh: HashLists,
    pub(crate) cells: usize,
}

// Whether the node is there, and is a fresh one with the set.
fn is_fresh_at(nodes: &[DeltaNode], node: Node, set: &OidSet) -> bool
    ensures { IsTrue result ↔ IsFreshAt nodes.now node set.now }
{
    match nodes.get(node.0 as usize) {
        Some(there) => match &there.origin {
            Origin::Fresh(own) => own.equal(set),
            Origin::Kept(_) => false,
        },
        None => false,
    }
}

// The first of the listed nodes that is fresh with the set.
fn first_fresh(nodes: &[DeltaNode], listed: &[Node], set: &OidSet) -> Option<Node>
    ensures found { IfSome result (λ node. IsFreshAt nodes.now node set.now) }
    ensures none { IfNone result (All (λ node. ¬ IsFreshAt nodes.now node set.now) listed.now) }
{
    'listed: for node in listed {
        if is_fresh_at(nodes, *node, set) {
            return Some(*node);
        }
    }
    None
}

// Whether one set more, with so many members, keeps the limits. The one on nodes is tested first.
fn check_room(count: usize, cells: usize, size: usize, limit: u32) -> Result<(), GuideFault>
    requires { cells ≤ THE_CELLS }
    ensures ok { OnOk result ((count < limit) × (cells + size ≤ THE_CELLS)) }
    ensures err { IfErr result (λ fault. IsRoomFault fault limit count cells size) }
{
    if count >= limit as usize {
        return Err(GuideFault::Nodes);
    }
    if size > CELLS - cells {
        return Err(GuideFault::Cells);
    }
    Ok(())
}

impl Found {
    // No node, beside those of the guide before.
    pub(crate) fn new(alloc: Global, kept: &[GuideNode]) -> Result<Found, NoMemory>
        requires { AllPairs (λ a b. a ≢ b) (sets_of kept.now) }
        ensures none { IfOk result (λ found. found.nodes.items ≡ []) }
        ensures found { IfOk result (λ found. IsFound kept.now found) }
    {
        let mut places = Vec::new(alloc);
        places.resize(kept.len(), None)?;
        Ok(Found {
            nodes: Vec::new(alloc),
            places,
            fresh: HashLists::new(alloc),
            cells: 0,
        })
    }

    // The node that has the set of a node before. Where there is none, it is made, without edges,
    // if the limits allow it.
    fn enter_kept(
        &mut self,
        alloc: Global,
        kept: &[GuideNode],
        node: Node,
        limit: u32,
    ) -> Result<Node, GuideFault>
        requires found { IsFound kept.now self.old }
        requires fit { KeepLimits limit (found_sets kept.now self.old) }
        requires there { node.0 < length kept.now }
        ensures entered { IfOk result
            (λ place. Enters kept.now limit self.old (Kept node) place self.new) }
        ensures stops { IfErr result (λ fault. Stops fault limit
            (found_sets kept.now self.old) (origin_set kept.now (Kept node))) }
    {
        let slot = node.0 as usize;
        if let Some(place) = self.places[slot] {
            return Ok(place);
        }
        let size = node_of(kept, node).set.len();
        check_room(self.nodes.len(), self.cells, size, limit)?;
        let place = Node(self.nodes.len() as u32);
        let edges = EdgeList::new(alloc);
        self.nodes.push(DeltaNode {
            origin: Origin::Kept(node),
            edges,
        })?;
        self.places[slot] = Some(place);
        self.cells += size;
        Ok(place)
    }

    // The node that has a set that no node had before. Where there is none, it is made, without
    // edges, if the limits allow it.
    fn enter_fresh(
        &mut self,
        alloc: Global,
        kept: &[GuideNode],
        set: OidSet,
        limit: u32,
    ) -> Result<Node, GuideFault>
        requires found { IsFound kept.now self.old }
        requires fit { KeepLimits limit (found_sets kept.now self.old) }
        requires fresh { ¬ Contains (sets_of kept.now) set }
        ensures entered { IfOk result
            (λ place. Enters kept.now limit self.old (Fresh set) place self.new) }
        ensures stops { IfErr result (λ fault. Stops fault limit
            (found_sets kept.now self.old) set) }
    {
        // Only the clauses speak of the nodes before.
        let _ = kept;
        let hash = set.hash64();
        if let Some(place) = first_fresh(self.nodes.as_slice(), self.fresh.get(hash), &set) {
            return Ok(place);
        }
        let size = set.len();
        check_room(self.nodes.len(), self.cells, size, limit)?;
        let place = Node(self.nodes.len() as u32);
        self.fresh.push(alloc, hash, place)?;
        let edges = EdgeList::new(alloc);
        self.nodes.push(DeltaNode {
            origin: Origin::Fresh(set),
            edges,
        })?;
        self.cells += size;
        Ok(place)
    }

    // The node that has the set. Where there is none, it is made, without edges, if the limits
    // allow it.
    pub(crate) fn enter(
        &mut self,
        alloc: Global,
        guide: &GuideNodes,
        origin: Origin,
        limit: u32,
    ) -> Result<Node, GuideFault>
        requires hashed { IsHashed guide.now.by_hash.now guide.now.nodes.now }
        requires found { IsFound guide.now.nodes.now self.old }
        requires fit { KeepLimits limit (found_sets guide.now.nodes.now self.old) }
        requires there { IsOrigin guide.now.nodes.now origin }
        ensures entered { IfOk result
            (λ place. Enters guide.now.nodes.now limit self.old origin place self.new) }
        ensures stops { IfErr result (λ fault. Stops fault limit
            (found_sets guide.now.nodes.now self.old) (origin_set guide.now.nodes.now origin)) }
    {
        match origin {
            Origin::Kept(node) => self.enter_kept(alloc, guide.nodes, node, limit),
            Origin::Fresh(set) => match find_node(guide.nodes, guide.by_hash, &set) {
                Some(node) => self.enter_kept(alloc, guide.nodes, node, limit),
                None => self.enter_fresh(alloc, guide.nodes, set, limit),
            },
        }
    }

    // Gives the node at a place these edges.
    pub(crate) fn put_edges(&mut self, kept: &[GuideNode], place: usize, edges: EdgeList)
        requires found { IsFound kept.now self.old }
        requires place { place < length self.old.nodes.items }
        ensures found { IsFound kept.now self.new }
        ensures sets { found_sets kept.now self.new
            ≡ found_sets kept.now self.old }
        ensures edges { (node : TheGuideNode)
            → slice_get (found_nodes kept.now self.new) place ≡ Some node
            → node.edges ≡ edges }
        ensures others { (other : ℕ) → (other ≡ place → ⊥)
            → slice_get (found_nodes kept.now self.new) other
            ≡ slice_get (found_nodes kept.now self.old) other }
    {
        // Only the clauses speak of the nodes before.
        let _ = kept;
        self.nodes[place].edges = edges;
    }
}

// Enters the sets of the targets one after another, and gives their keys with their nodes.
pub(crate) fn enter_all<K: Drop>(
    alloc: Global,
    found: &mut Found,
    guide: &GuideNodes,
    targets: Vec<(K, Origin)>,
    limit: u32,
) -> Result<Listing<(K, Node)>, GuideFault>
    requires hashed { IsHashed guide.now.by_hash.now guide.now.nodes.now }
    requires found { IsFound guide.now.nodes.now found.old }
    requires fit { KeepLimits limit (found_sets guide.now.nodes.now found.old) }
    requires there { All (λ target. IsOrigin guide.now.nodes.now target.1) targets.items }
    ensures entered { IfOk result (λ row.
        EntersAll guide.now.nodes.now limit found.old targets.items row found.new) }
    ensures stopped { IfErr result (λ fault. AreStopped fault limit
        (found_sets guide.now.nodes.now found.old) (target_sets guide.now.nodes.now targets.items)) }
{
    let mut row = Listing::new(alloc);
    'targets: for (key, target) in targets {
        let node = found.enter(alloc, guide, target, limit)?;
        row.push((key, node))?;
    }
    Ok(row)
}
