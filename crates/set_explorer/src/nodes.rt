ghost use Rattle.std.specs.Prelude.{◌≡◌, ◌↔◌, ◌<◌, length, Contains, Some, slice_get};
ghost use Rattle.std.specs.Prelude.{IsTrue, IfSome, IfNone};
ghost use Rattle.std.specs.Option.{option_copied};
ghost use Rattle.set_explorer.specs.Types.{Node as TheNode};
ghost use Rattle.set_explorer.specs.Nodes.{sets_of, HasSet, AscendByLabel};
ghost use Rattle.set_explorer.specs.HashedNodes.{IsHashed};

use lore_base::{Label, Listing};
use oem_set::OidSet;

/// The number of a node: its place among the nodes of its guide, from 0 on.
#[derive(Clone, Copy, Debug, PartialEq, Eq, PartialOrd, Ord, Hash)]
pub struct Node(pub u32);

/// Labels with the nodes that they lead to.
pub type EdgeList = Listing<(Label, Node)>;

/// A node of a guide: a target set, and for each label that leaves it the node of the step.
#[derive(Drop)]
pub struct GuideNode {
    pub set: OidSet,
    pub edges: EdgeList,
}

/// The nodes of a guide in the order of their numbers, and the hashes of their sets with the nodes, in the order
/// of the hashes.
#[derive(Drop)]
pub struct GuideNodes<'a> {
    pub nodes: &'a [GuideNode],
    pub by_hash: &'a [(u64, Node)],
}

/// The node with the number; None exactly where there are not so many. Takes no memory.
pub fn node_at(nodes: &[GuideNode], node: Node) -> Option<&GuideNode>
    ensures { option_copied result ≡ slice_get nodes.now node.0 }
{
    nodes.get(node.0 as usize)
}

// The node with the number, where there are so many.
pub(crate) fn node_of(nodes: &[GuideNode], node: Node) -> &GuideNode
    requires { node.0 < length nodes.now }
    ensures { slice_get nodes.now node.0 ≡ Some result.now }
{
    &nodes[node.0 as usize]
}

// The edge at a place.
fn edge_at(edges: &[(Label, Node)], place: usize) -> Option<(Label, Node)>
    ensures { result ≡ slice_get edges.now place }
{
    edges.get(place).copied()
}

/// The node that the label leads to, found by binary search; None exactly where the label has no edge. Takes
/// no memory.
pub fn next_by(edges: &[(Label, Node)], label: Label) -> Option<Node>
    requires { AscendByLabel edges.now }
    ensures found { IfSome result (λ next. Contains edges.now (label, next)) }
    ensures none { IfNone result ((next : TheNode) → ¬ Contains edges.now (label, next)) }
{
    let place = edges.partition_point(|edge| edge.0.0 < label.0);
    match edge_at(edges, place) {
        Some(edge) if edge.0.0 == label.0 => Some(edge.1),
        _ => None,
    }
}

// Whether the node is there and has the set.
fn has_set(nodes: &[GuideNode], node: Node, set: &OidSet) -> bool
    ensures { IsTrue result ↔ HasSet nodes.now node set.now }
{
    match nodes.get(node.0 as usize) {
        Some(there) => there.set.equal(set),
        None => false,
    }
}

/// A node with the set, looked for among those under its hash; None exactly where no node has it. Takes no
/// memory.
pub fn find_node(nodes: &[GuideNode], by_hash: &[(u64, Node)], set: &OidSet) -> Option<Node>
    requires { IsHashed by_hash.now nodes.now }
    ensures found { IfSome result (λ node. HasSet nodes.now node set.now) }
    ensures none { IfNone result (¬ Contains (sets_of nodes.now) set.now) }
{
    let hash = set.hash64();
    let start = by_hash.partition_point(|entry| entry.0 < hash);
    let mut place = start;
    'run: while place < by_hash.len() {
        let entry = by_hash[place];
        if entry.0 != hash {
            return None;
        }
        if has_set(nodes, entry.1, set) {
            return Some(entry.1);
        }
        place += 1;
    }
    None
}
