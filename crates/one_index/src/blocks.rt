ghost use Rattle.std.specs.Prelude.{◌≡◌, ℕ, length, IfSome, IfNone, slice_get};
ghost use Rattle.std.specs.Prelude.{option_map, option_and_then};
ghost use Rattle.std.specs.Option.{option_copied};
ghost use Rattle.one_index.specs.Blocks.{IsMember};

use crate::places::place_of;
use lore_base::{Label, Listing, Oid, OidBuf};
use oem_set::OidSet;
use std::marker::Model;

/// A block: its objects, and the labels of the edges that leave them, each with the number of a
/// block that an edge by it leads to, ascending.
#[derive(Drop)]
pub struct Block {
    pub members: OidSet,
    pub edges: Listing<(Label, u32)>,
}

/// The blocks of a graph, by their numbers, which are their places from 0 on. Contracts see them
/// as the list of blocks.
#[derive(Drop)]
pub struct Blocks {
    pub(crate) objects: OidBuf,
    pub(crate) numbers: Vec<usize>,
    pub(crate) blocks: Vec<Block>,
}

impl Model for Blocks {
    ghost use Rattle.std.specs.Prelude.{List};
    ghost use Rattle.one_index.specs.Types.{Block};
    ghost use Rattle.one_index.specs.inside.Places.{AreNumbered};

    ghost Value = { List Block };

    ghost view = { λ b. b.blocks.items };

    ghost invariant = { λ b. AreNumbered b.objects b.numbers.items b.blocks.items };
}

impl Blocks {
    /// The number of blocks.
    pub fn len(&self) -> u32
        ensures { result ≡ length self.now }
    {
        self.blocks.len() as u32
    }

    /// The block of the object; None exactly where the object is in none. Takes no memory.
    pub fn block_of(&self, oid: Oid) -> Option<u32>
        ensures found { IfSome result (λ number. IsMember self.now number oid) }
        ensures only { IfSome result (λ number. (other : ℕ)
            → IsMember self.now other oid → other ≡ number) }
        ensures none { IfNone result ((number : ℕ) → ¬ IsMember self.now number oid) }
    {
        match place_of(self.objects.as_slice(), oid) {
            Some(place) => Some(self.numbers[place] as u32),
            None => None,
        }
    }

    /// The block with the number; None exactly where there are not so many. Takes no memory.
    pub fn get(&self, number: u32) -> Option<&Block>
        ensures { option_copied result ≡ slice_get self.now number }
    {
        self.blocks.get(number as usize)
    }

    /// The objects of the block with the number; None exactly where there are not so many blocks.
    /// Takes no memory.
    pub fn members(&self, number: u32) -> Option<&OidSet>
        ensures { option_copied result
            ≡ option_map (λ block. block.members) (slice_get self.now number) }
    {
        match self.get(number) {
            Some(block) => Some(&block.members),
            None => None,
        }
    }

    /// The edge at a place of the block with the number, counted from 0 in the order of labels and
    /// blocks; None exactly where there is no such block or place. Takes no memory.
    pub fn out(&self, number: u32, place: u32) -> Option<(Label, u32)>
        ensures { result ≡ option_and_then
            (λ block. slice_get block.edges place) (slice_get self.now number) }
    {
        match self.get(number) {
            Some(block) => block.edges.get(place as usize).copied(),
            None => None,
        }
    }
}
