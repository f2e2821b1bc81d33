ghost use Rattle.std.specs.Prelude.{◌≡◌};
ghost use Rattle.one_index.specs.Blocks.{NamedGraph, IsSound, AreBlocksOf, IsMember, HasEdge};
ghost use Rattle.one_index.specs.BlockReaches.{TellsOf, TellsReached};
ghost use Rattle.one_index.specs.inside.Places.{same_number};

use crate::blocks::Blocks;
use index_traits::Paths;
use lore_base::{Label, NoMemory, Oid, OidBuf, Path};
use oem_labels::LabelTable;
use set_walk::{SetGraph, select_by_sets};
use std::alloc::Global;
use std::marker::Model;

/// Paths from named objects, told by the blocks: their graph is walked in place of the objects',
/// so that no edge is read, and what is reached is a union of blocks (Milo and Suciu 1999).
/// Contracts see the blocks and the label texts.
#[derive(Drop)]
pub struct BlockPaths<'a> {
    blocks: &'a Blocks,
    labels: &'a LabelTable,
}

impl<'a> Model for BlockPaths<'a> {
    ghost use Rattle.one_index.specs.BlockReaches.{BlocksOver};

    ghost Value = { BlocksOver };

    ghost view = { λ paths. record { blocks = paths.blocks.now; labels = paths.labels.now } };
}

impl<'a> BlockPaths<'a> {
    /// The paths that these blocks tell. What a path reaches from a named object is then what it
    /// reaches along the edges of the graph whose blocks they are. Takes no memory.
    pub fn new(blocks: &'a Blocks, labels: &'a LabelTable) -> BlockPaths<'a>
        ensures blocks { result.blocks ≡ blocks.now }
        ensures labels { result.labels ≡ labels.now }
        ensures tells { (graph : NamedGraph) → IsSound graph → AreBlocksOf graph blocks.now
            → TellsOf result graph.names graph.edges }
    {
        BlockPaths { blocks, labels }
    }
}

// The blocks as a graph of sets.
#[derive(Drop)]
struct BlockSets<'a> {
    blocks: &'a Blocks,
}

impl<'a> SetGraph for BlockSets<'a> {
    type Node = u32;

    ghost goes = { λ sets. HasEdge sets.blocks.now };

    ghost has = { λ sets. IsMember sets.blocks.now };

    fn edges(&self, node: u32) -> &[(Label, u32)] {
        match self.blocks.get(node) {
            Some(block) => block.edges.as_slice(),
            None => &[],
        }
    }

    fn members(&self, node: u32) -> &[Oid] {
        match self.blocks.get(node) {
            Some(block) => block.members.as_slice(),
            None => &[],
        }
    }

    ghost exact = { same_number };
}

impl<'a> Paths for BlockPaths<'a> {
    ghost reaches = { TellsReached };

    fn select(
        &self,
        alloc: Global,
        path: &Path,
        named: Oid,
        buf: &mut OidBuf,
    ) -> Result<(), NoMemory> {
        let sets = BlockSets {
            blocks: self.blocks,
        };
        let start = self.blocks.block_of(named);
        select_by_sets(alloc, &sets, self.labels, path, start, buf)
    }
}
