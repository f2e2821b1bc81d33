ghost use Rattle.std.specs.Prelude.{◌≡◌, ◌↔◌, ◌<◌, List, [], length, Some, slice_get};
ghost use Rattle.std.specs.Prelude.{IsTrue, IfSome, IfNone, IsOk, All, Contains};
ghost use Rattle.std.specs.Option.{option_copied};
ghost use Rattle.dataguide.specs.Types.{Edge as TheEdge, Node as TheNode};
ghost use Rattle.dataguide.specs.Guides.{StandsFor, node_of as the_node_of, edge_at, HasEdge};
ghost use Rattle.set_explorer.specs.Nodes.{sets_of, HasSet};
ghost use Rattle.set_explorer.specs.Nodes.{AscendByLabel};
ghost use Rattle.dataguide.specs.Deltas.{guide_then, IsReady};
ghost use Rattle.set_explorer.specs.HashedNodes.{IsHashed};

use crate::delta::GuideDelta;
use crate::entries::Entries;
use lore_base::{Label, NoMemory, OemText};
use oem_set::OidSet;
use set_explorer::{Filled, GuideNode, GuideNodes, Node, fill_nodes, find_node, next_by, node_at};
use std::alloc::Global;
use std::marker::Model;

/// The strong DataGuide of a database (Goldman and Widom 1997): a node for each set of objects that
/// a label path leads to. Contracts see it as its nodes, each with its set and its edges, ascending
/// by label, and its entries, each a name with a node.
#[derive(Drop)]
pub struct Guide {
    nodes: Vec<GuideNode>,
    entries: Entries,
    by_hash: Vec<(u64, Node)>,
}

impl Model for Guide {
    ghost use Rattle.dataguide.specs.Guides.{GuideGraph};
    ghost use Rattle.dataguide.specs.inside.NodeTables.{IsNodeTable};

    ghost Value = { GuideGraph };

    ghost view = { λ g. record { nodes = g.nodes.items; entries = g.entries } };

    ghost invariant = { λ g. IsNodeTable g.by_hash.items g.nodes.items };
}

impl Guide {
    /// The guide of a database without names: no node and no entry. Takes no memory.
    pub fn new(alloc: Global) -> Guide
        ensures nodes { result.nodes ≡ [] }
        ensures entries { result.entries ≡ [] }
        ensures guide { (edges : List TheEdge) → StandsFor result [] edges }
    {
        Guide {
            nodes: Vec::new(alloc),
            entries: Entries::new(alloc),
            by_hash: Vec::new(alloc),
        }
    }

    /// The node of the name; None exactly where the name isn't bound. Takes no memory.
    pub fn entry(&self, name: &OemText) -> Option<Node>
        ensures { result ≡ the_node_of self.now.entries name.now }
    {
        self.entries.find(name)
    }

    /// The node that the label leads to from the node; None exactly where there is none. Takes no
    /// memory.
    pub fn child(&self, node: Node, label: Label) -> Option<Node>
        ensures found { IfSome result (λ next. HasEdge self.now.nodes node label next) }
        ensures none { IfNone result ((next : TheNode) → ¬ HasEdge self.now.nodes node label next) }
    {
        match node_at(self.nodes.as_slice(), node) {
            Some(there) => next_by(there.edges.as_slice(), label),
            None => None,
        }
    }

    /// The set of the node; None exactly where there are not so many nodes. Takes no memory.
    pub fn set(&self, node: Node) -> Option<&OidSet>
        ensures { option_copied result ≡ slice_get (sets_of self.now.nodes) node.0 }
    {
        self.nodes
            .as_slice()
            .get(node.0 as usize)
            .map(|there| &there.set)
    }

    /// The nodes, in the order of their numbers. Takes no memory.
    pub fn nodes(&self) -> &[GuideNode]
        ensures { result.now ≡ self.now.nodes }
    {
        self.nodes.as_slice()
    }

    /// The names with their nodes, in the order of the names' bytes. Takes no memory.
    pub fn entries(&self) -> &[(OemText, Node)]
        ensures { result.now ≡ self.now.entries }
    {
        self.entries.as_slice()
    }

    /// The allocator that the guide takes its memory from. Contracts see of a guide its nodes and
    /// entries alone, so no clause can say which it is; it decides no answer but want of memory.
    pub fn allocator(&self) -> Global {
        *self.nodes.allocator()
    }

    /// The number of nodes.
    pub fn len(&self) -> u32
        ensures { result ≡ length self.now.nodes }
    {
        self.nodes.len() as u32
    }

    /// The one node with the set; None exactly where there is none. Takes no memory.
    pub fn find_set(&self, set: &OidSet) -> Option<Node>
        ensures found { IfSome result (λ node. HasSet self.now.nodes node set.now) }
        ensures only { IfSome result (λ node. (other : TheNode)
            → HasSet self.now.nodes other set.now → other ≡ node) }
        ensures none { IfNone result (¬ Contains (sets_of self.now.nodes) set.now) }
    {
        find_node(self.nodes.as_slice(), self.by_hash.as_slice(), set)
    }

    // The nodes, and the hashes of their sets, by which they are found.
    pub(crate) fn table(&self) -> GuideNodes<'_>
        ensures nodes { result.nodes.now ≡ self.now.nodes }
        ensures hashed { IsHashed result.by_hash.now self.now.nodes }
    {
        GuideNodes {
            nodes: self.nodes.as_slice(),
            by_hash: self.by_hash.as_slice(),
        }
    }

    /// The edge of the node at place `i` in the order of labels, counted from 0; None exactly where
    /// there are not so many. Takes no memory.
    pub fn labels_of(&self, node: Node, i: u32) -> Option<(Label, Node)>
        ensures edge { result ≡ edge_at self.now.nodes node i }
        ensures ascending { All (λ there. AscendByLabel there.edges) self.now.nodes }
    {
        let there = self.nodes.as_slice().get(node.0 as usize)?;
        there.edges.get(i as usize).copied()
    }

    /// Makes ready for `commit`. A delta has the memory that it takes, so there is nothing to do.
    pub fn reserve(&mut self, _delta: &GuideDelta) -> Result<(), NoMemory>
        ensures ok { IsOk result }
        ensures same { self.new ≡ self.old }
    {
        Ok(())
    }

    /// Becomes the planned guide. Takes no memory: sets of nodes that are kept are moved.
    pub fn commit(&mut self, delta: GuideDelta)
        requires { IsReady self.old.nodes delta }
        ensures { self.new ≡ guide_then self.old.nodes delta }
    {
        let GuideDelta {
            nodes,
            entries,
            room,
            by_hash,
        } = delta;
        let alloc = self.allocator();
        let old = std::mem::replace(&mut self.nodes, Vec::new(alloc));
        let Filled { nodes, mut by_hash } = fill_nodes(old, nodes, room, by_hash);
        by_hash.sort_unstable_by_key(|entry| entry.0);
        self.nodes = nodes;
        self.entries = entries;
        self.by_hash = by_hash;
    }
}

#[cfg(test)]
mod tests;
