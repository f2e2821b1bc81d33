ghost use Rattle.std.specs.Prelude.{◌≡◌, ◌<◌, [], ◌∷◌, ◌++◌, length, All, Some, slice_get};
ghost use Rattle.std.specs.Prelude.{slice_set, IfOk, OnOk, OnErr};
ghost use Rattle.std.specs.declared.cmp.Ordering.TheVariants.{Less};
ghost use Rattle.lore_base.specs.Bytes.{bytes_cmp};
ghost use Rattle.dataguide.specs.Types.{DeltaNode as TheDeltaNode};
ghost use Rattle.set_explorer.specs.Nodes.{node_number};
ghost use Rattle.dataguide.specs.Deltas.{HasLabelsBelow, with_edge};

use crate::entries::Entries;
use lore_base::{Label, NoMemory, OemText};
use set_explorer::{DeltaNode, EdgeList, GuideNode, Node, Origin};
use std::alloc::Global;
use std::marker::Model;

/// A planned guide, with the memory that a guide takes to become it. Contracts see it as its nodes,
/// each with the origin of its set and its edges, ascending by label, and its entries, each a name
/// with a node. Nodes are told by their places among the planned ones, from 0 on.
#[derive(Drop)]
pub struct GuideDelta {
    pub(crate) nodes: Vec<DeltaNode>,
    pub(crate) entries: Entries,
    pub(crate) room: Vec<GuideNode>,
    pub(crate) by_hash: Vec<(u64, Node)>,
}

impl Model for GuideDelta {
    ghost use Rattle.std.specs.Prelude.{vec_capacity};
    ghost use Rattle.dataguide.specs.Deltas.{PlannedGuide};
    ghost use Rattle.dataguide.specs.inside.Fills.{IsPlanned};

    ghost Value = { PlannedGuide };

    ghost view = { λ d. record { nodes = d.nodes.items; entries = d.entries } };

    ghost invariant = { λ d. IsPlanned d.nodes.items d.room.items (vec_capacity d.room)
        d.by_hash.items (vec_capacity d.by_hash) };
}

impl GuideDelta {
    /// No node and no entry. Takes no memory.
    pub fn new(alloc: Global) -> GuideDelta
        ensures { result ≡ record { nodes = []; entries = [] } }
    {
        GuideDelta {
            nodes: Vec::new(alloc),
            entries: Entries::new(alloc),
            room: Vec::new(alloc),
            by_hash: Vec::new(alloc),
        }
    }

    /// Appends a node without edges, and gives its place.
    pub fn node(&mut self, origin: Origin) -> Result<u32, NoMemory>
        requires { length self.old.nodes < 65_536 }
        ensures place { IfOk result (λ place. place ≡ length self.old.nodes) }
        ensures ok { OnOk result (self.new ≡ record self.old {
          nodes = self.old.nodes ++ record { origin = origin; edges = [] } ∷ [];
        }) }
        ensures err { OnErr result (self.new ≡ self.old) }
    {
        let more = self.nodes.len() + 1;
        self.room.reserve(more)?;
        self.by_hash.reserve(more)?;
        let place = self.nodes.len() as u32;
        let edges = EdgeList::new(*self.nodes.allocator());
        self.nodes.push(DeltaNode { origin, edges })?;
        Ok(place)
    }

    /// Appends an edge to the node at a place. Its label is above those that the node has.
    pub fn edge(&mut self, from: u32, label: Label, to: u32) -> Result<(), NoMemory>
        requires from { from < length self.old.nodes }
        requires to { to < length self.old.nodes }
        requires above { (node : TheDeltaNode) → slice_get self.old.nodes from ≡ Some node
            → HasLabelsBelow node label }
        ensures ok { OnOk result ((node : TheDeltaNode)
            → slice_get self.old.nodes from ≡ Some node
            → self.new ≡ record self.old {
              nodes = slice_set self.old.nodes from (with_edge node label to);
            }) }
        ensures err { OnErr result (self.new ≡ self.old) }
    {
        self.nodes[from as usize].edges.push((label, Node(to)))?;
        Ok(())
    }

    /// Appends an entry. Its name comes after those of the entries that there are.
    pub fn entry(&mut self, name: &OemText, to: u32) -> Result<(), NoMemory>
        requires to { to < length self.old.nodes }
        requires above { All (λ entry. bytes_cmp entry.0 name.now ≡ Less) self.old.entries }
        ensures ok { OnOk result (self.new ≡ record self.old {
          entries = self.old.entries ++ (name.now, node_number to) ∷ [];
        }) }
        ensures err { OnErr result (self.new ≡ self.old) }
    {
        self.entries.push(name, Node(to))?;
        Ok(())
    }
}
