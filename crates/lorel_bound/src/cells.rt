ghost use Rattle.std.specs.Prelude.{◌≡◌, Some, refl};
ghost use Rattle.std.specs.Cmp.{partial_equiv_from_equiv};
ghost use Rattle.lore_base.specs.LeastWords.{shortlex_cmp};
ghost use Rattle.lorel_bound.specs.Types.{Cell as TheCell};
ghost use Rattle.lorel_bound.specs.Types.cells.{Object};
ghost use Rattle.lorel_bound.specs.CellOrder.{cell_cmp};
ghost use Rattle.lorel_bound.specs.CellOrder.{same_cell, cell_total, cell_equiv, cell_ties, cell_po};

use lore_base::{NoMemory, Oid, TryCopy, Word};
use std::alloc::Global;
use std::cmp::Ordering;

/// A cell of a row.
#[derive(Debug, Drop)]
pub enum Cell {
    /// An object.
    Object(Oid),
    /// The least word by which an object is reached: labels, the first one first.
    Path(Word),
}

/// The object 0, which is no object: what stands in a place for a cell that isn't used.
impl Default for Cell {
    ghost is_default = { λ cell. cell ≡ Object (record { 0 = 0 }) };

    fn default() -> Cell {
        Cell::Object(Oid(0))
    }
}

impl TryCopy for Cell {
    ghost Seen = { TheCell };

    ghost seen = { λ cell. cell };

    fn try_copy(&self, alloc: Global) -> Result<Self, NoMemory> {
        match self {
            Cell::Object(oid) => Ok(Cell::Object(*oid)),
            Cell::Path(word) => Ok(Cell::Path(word.try_copy(alloc)?)),
        }
    }
}

// Objects are compared by their numbers; words by their lengths, and those of one length by the
// numbers of their labels. So rows of cells can be sorted.

impl PartialEq for Cell {
    ghost eq = { same_cell };

    ghost laws = { partial_equiv_from_equiv cell_equiv };

    fn eq(&self, other: &Cell) -> bool {
        self.cmp(other).is_eq()
    }
}

impl Eq for Cell {
    ghost laws = { cell_equiv };
}

impl PartialOrd for Cell {
    ghost partial_cmp = { λ a b. Some (cell_cmp a b) };

    ghost laws = { cell_po };

    fn partial_cmp(&self, other: &Cell) -> Option<Ordering> {
        Some(self.cmp(other))
    }
}

impl Ord for Cell {
    ghost cmp = { cell_cmp };

    ghost total = { cell_total };

    ghost matches_partial_cmp = { λ a b. refl };

    ghost matches_eq = { cell_ties };

    fn cmp(&self, other: &Cell) -> Ordering {
        match (self, other) {
            (Cell::Object(a), Cell::Object(b)) => a.cmp(b),
            (Cell::Object(_), Cell::Path(_)) => Ordering::Less,
            (Cell::Path(_), Cell::Object(_)) => Ordering::Greater,
            (Cell::Path(a), Cell::Path(b)) => word_order(a, b),
        }
    }
}

// How two words compare: the shorter one comes first.
fn word_order(a: &Word, b: &Word) -> Ordering
    ensures { result ≡ shortlex_cmp a.now b.now }
{
    a.len().cmp(&b.len()).then(a.as_slice().cmp(b.as_slice()))
}
