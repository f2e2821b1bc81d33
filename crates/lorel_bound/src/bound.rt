ghost use Rattle.std.specs.Prelude.{◌≡◌, option_map, IfOk};
ghost use Rattle.lorel_bound.specs.Types.{RANGES, CellOf as TheCell};
ghost use Rattle.lorel_bound.specs.Bound.{RangeTree, BoundTree, range_tree, bound_cond, bound_tree};
ghost use Rattle.lorel_bound.specs.Runnable.{IsWithin};
ghost use Rattle.lorel_bound.specs.SlotRows.{StartsAt};

use crate::conditions::BoundCond;
use index_traits::Row;
use lore_base::{Listing, NoMemory, Oid, Path, TryCopy};
use std::alloc::Global;

/// What a range starts at.
#[derive(Clone, Copy, Debug, PartialEq, Eq)]
pub enum Start {
    /// The object of a name.
    Named(Oid),
    /// The object of the range with this number, counted from 0.
    Slot(u32),
}

impl Start {
    /// The object of the start, where the row gives each slot its object.
    pub fn object(self, row: &Row) -> Oid
        requires { IsWithin RANGES self }
        ensures { StartsAt row.now self result }
    {
        match self {
            Start::Named(oid) => oid,
            Start::Slot(slot) => row.get(slot),
        }
    }
}

/// A range gives an object to the slot with its number: one that its path reaches from its start.
#[derive(Drop)]
pub struct Range {
    pub start: Start,
    pub path: Path,
}

/// The ranges of a select, each behind the one that it starts at.
pub type RangeList = Listing<Range>;

/// What a cell of each row shows.
#[derive(Clone, Copy, Debug, PartialEq, Eq)]
pub enum CellOf {
    /// The object of a start.
    Object(Start),
    /// The least word by which the object in this slot is reached along its range.
    PathOf(u32),
}

/// The cells of each row, in text order.
pub type CellList = Listing<CellOf>;

/// A select whose paths start at objects and slots.
#[derive(Drop)]
pub struct Bound {
    pub ranges: RangeList,
    pub cells: CellList,
    pub cond: Option<BoundCond>,
}

impl TryCopy for CellOf {
    ghost Seen = { TheCell };

    ghost seen = { λ cell. cell };

    fn try_copy(&self, _alloc: Global) -> Result<Self, NoMemory> {
        Ok(*self)
    }
}

impl TryCopy for Range {
    ghost Seen = { RangeTree };

    ghost seen = { range_tree };

    fn try_copy(&self, alloc: Global) -> Result<Self, NoMemory> {
        Ok(Range {
            start: self.start,
            path: self.path.try_copy(alloc)?,
        })
    }
}

impl TryCopy for Bound {
    ghost Seen = { BoundTree };

    ghost seen = { bound_tree };

    fn try_copy(&self, alloc: Global) -> Result<Self, NoMemory> {
        let ranges = self.ranges.try_copy(alloc)?;
        let cells = self.cells.try_copy(alloc)?;
        let cond = copy_option(alloc, &self.cond)?;
        Ok(Bound {
            ranges,
            cells,
            cond,
        })
    }
}

fn copy_option(alloc: Global, cond: &Option<BoundCond>) -> Result<Option<BoundCond>, NoMemory>
    ensures { IfOk result (λ copy. option_map bound_cond copy ≡ option_map bound_cond cond.now) }
{
    match cond {
        Some(cond) => Ok(Some(cond.try_copy(alloc)?)),
        None => Ok(None),
    }
}
