ghost use Rattle.std.specs.Prelude.{◌≡◌, ℕ, [], Contains, OnOk};
ghost use Rattle.set_explorer.specs.Types.{Node as TheNode};
ghost use Rattle.set_explorer.specs.inside.HashLists.{listed};

use crate::nodes::Node;
use lore_base::{Listing, NoMemory};
use std::alloc::Global;
use std::collections::BTreeMap;
use std::marker::Model;

// Nodes by the hashes of their sets. Contracts see it as a list of (hash, nodes).
#[derive(Drop)]
pub(crate) struct HashLists {
    lists: BTreeMap<u64, Listing<Node>>,
}

impl Model for HashLists {
    ghost use Rattle.std.specs.Prelude.{ℕ, List};
    ghost use Rattle.set_explorer.specs.Types.{Node};

    ghost Value = { List (ℕ × List Node) };

    ghost view = { λ h. h.lists.entries };
}

impl HashLists {
    // No node. Takes no memory.
    pub(crate) fn new(alloc: Global) -> HashLists
        ensures { result ≡ [] }
    {
        HashLists {
            lists: BTreeMap::new(alloc),
        }
    }

    // The nodes under the hash.
    pub(crate) fn get(&self, hash: u64) -> &[Node]
        ensures { result.now ≡ listed self.now hash }
    {
        match self.lists.get(&hash) {
            Some(list) => list.as_slice(),
            None => &[],
        }
    }

    // Puts the node under the hash, behind those that are there: nearly always none.
    pub(crate) fn push(&mut self, alloc: Global, hash: u64, node: Node) -> Result<(), NoMemory>
        ensures added { OnOk result (Contains (listed self.new hash) node) }
        ensures kept { (other : ℕ) (there : TheNode)
            → Contains (listed self.old other) there → Contains (listed self.new other) there }
    {
        let mut list = Listing::new(alloc);
        list.append(self.get(hash))?;
        list.push(node)?;
        self.lists.insert(hash, list)?;
        Ok(())
    }
}
