ghost use Rattle.std.specs.Prelude.{◌≡◌, ◌↔◌, List, [], ◌∷◌, ◌++◌, length, slice_get, refl};
ghost use Rattle.std.specs.Prelude.{Some, All, IsTrue, IfOk, OnOk, OnErr};
ghost use Rattle.std.specs.declared.cmp.Ordering.TheVariants.{Less};
ghost use Rattle.std.specs.Option.{option_copied};
ghost use Rattle.std.specs.Cmp.{partial_equiv_from_equiv};
ghost use Rattle.std.specs.Cmp.Lexicographic.{pointwise};
ghost use Rattle.lorel_bound.specs.Types.{Cell as TheCell};
ghost use Rattle.lorel_bound.specs.CellOrder.{same_cell, row_cmp};
ghost use Rattle.lorel_bound.specs.CellOrder.{rows_total, rows_equiv, rows_ties, rows_po};
ghost use Rattle.lorel_bound.specs.Answers.{AreAscendingRows};

use crate::cells::Cell;
use lore_base::{NoMemory, TryCopy};
use smallvec::SmallVec;
use std::alloc::Global;
use std::cmp::Ordering;
use std::marker::Model;

/// One row of an answer, seen by contracts as the list of its cells. Up to two cells stand in the
/// row itself, so that such a row takes no block of memory of its own.
#[derive(Debug, Drop)]
pub struct AnswerRow {
    cells: SmallVec<Cell, 2>,
}

impl Model for AnswerRow {
    ghost use Rattle.std.specs.Prelude.{List};
    ghost use Rattle.lorel_bound.specs.Types.{Cell};

    ghost Value = { List Cell };

    ghost view = { λ r. r.cells.items };
}

impl AnswerRow {
    /// The row of no cell. Takes no memory.
    pub fn new(alloc: Global) -> AnswerRow
        ensures { result ≡ [] }
    {
        AnswerRow {
            cells: SmallVec::new(alloc),
        }
    }

    /// The number of cells.
    pub fn len(&self) -> usize
        ensures { result ≡ length self.now }
    {
        self.cells.len()
    }

    /// Whether there is no cell.
    pub fn is_empty(&self) -> bool
        ensures { IsTrue result ↔ (self.now ≡ []) }
    {
        self.cells.is_empty()
    }

    /// The cell at place `i`, counted from 0; None exactly where there are not so many.
    pub fn get(&self, i: usize) -> Option<&Cell>
        ensures { option_copied result ≡ slice_get self.now i }
    {
        self.as_slice().get(i)
    }

    /// The cells as a slice.
    pub fn as_slice(&self) -> &[Cell]
        ensures { result.now ≡ self.now }
    {
        self.cells.as_slice()
    }

    /// Puts a cell behind those that are there.
    pub fn push(&mut self, cell: Cell) -> Result<(), NoMemory>
        ensures ok { OnOk result (self.new ≡ self.old ++ cell ∷ []) }
        ensures err { OnErr result (self.new ≡ self.old) }
    {
        self.cells.push(cell)?;
        Ok(())
    }
}

impl TryCopy for AnswerRow {
    ghost Seen = { List TheCell };

    ghost seen = { λ row. row };

    fn try_copy(&self, alloc: Global) -> Result<Self, NoMemory> {
        let mut copy = AnswerRow::new(alloc);
        'cells: for cell in self.as_slice() {
            copy.push(cell.try_copy(alloc)?)?;
        }
        Ok(copy)
    }
}

// Rows are compared by their cells from the left, so they can be sorted.

impl PartialEq for AnswerRow {
    ghost eq = { pointwise same_cell };

    ghost laws = { partial_equiv_from_equiv rows_equiv };

    fn eq(&self, other: &AnswerRow) -> bool {
        self.as_slice() == other.as_slice()
    }
}

impl Eq for AnswerRow {
    ghost laws = { rows_equiv };
}

impl PartialOrd for AnswerRow {
    ghost partial_cmp = { λ a b. Some (row_cmp a b) };

    ghost laws = { rows_po };

    fn partial_cmp(&self, other: &AnswerRow) -> Option<Ordering> {
        Some(self.cmp(other))
    }
}

impl Ord for AnswerRow {
    ghost cmp = { row_cmp };

    ghost total = { rows_total };

    ghost matches_partial_cmp = { λ a b. refl };

    ghost matches_eq = { rows_ties };

    fn cmp(&self, other: &AnswerRow) -> Ordering {
        self.as_slice().cmp(other.as_slice())
    }
}

/// The rows of a select, seen by contracts as their strictly ascending list.
#[derive(Debug, Drop)]
pub struct Answer {
    rows: Vec<AnswerRow>,
}

impl Model for Answer {
    ghost use Rattle.std.specs.Prelude.{List};
    ghost use Rattle.lorel_bound.specs.Types.{Cell};
    ghost use Rattle.lorel_bound.specs.Answers.{AreAscendingRows};

    ghost Value = { List (List Cell) };

    ghost view = { λ a. a.rows.items };

    ghost invariant = { λ a. AreAscendingRows a.rows.items };
}

impl Answer {
    /// The answer of no row. Takes no memory.
    pub fn new(alloc: Global) -> Answer
        ensures { result ≡ [] }
    {
        Answer {
            rows: Vec::new(alloc),
        }
    }

    /// The answer of these rows, which ascend. Takes no memory.
    pub fn from_rows(rows: Vec<AnswerRow>) -> Answer
        requires { AreAscendingRows rows.items }
        ensures { result ≡ rows.items }
    {
        Answer { rows }
    }

    /// The number of rows.
    pub fn len(&self) -> usize
        ensures { result ≡ length self.now }
    {
        self.rows.len()
    }

    /// Whether there is no row.
    pub fn is_empty(&self) -> bool
        ensures { IsTrue result ↔ (self.now ≡ []) }
    {
        self.rows.is_empty()
    }

    /// The row at place `i`, counted from 0; None exactly where there are not so many.
    pub fn get(&self, i: usize) -> Option<&AnswerRow>
        ensures { option_copied result ≡ slice_get self.now i }
    {
        self.rows.get(i)
    }

    /// The rows as a slice. They ascend.
    pub fn as_slice(&self) -> &[AnswerRow]
        ensures rows { result.now ≡ self.now }
        ensures ascending { AreAscendingRows self.now }
    {
        self.rows.as_slice()
    }

    /// Puts a row behind those that are there, which it comes after in the order of rows.
    pub fn push(&mut self, row: AnswerRow) -> Result<(), NoMemory>
        requires { All (λ earlier. row_cmp earlier row ≡ Less) self.old }
        ensures ok { OnOk result (self.new ≡ self.old ++ row ∷ []) }
        ensures err { OnErr result (self.new ≡ self.old) }
    {
        self.rows.push(row)?;
        Ok(())
    }
}

impl TryCopy for Answer {
    ghost Seen = { List (List TheCell) };

    ghost seen = { λ answer. answer };

    fn try_copy(&self, alloc: Global) -> Result<Self, NoMemory> {
        Ok(Answer {
            rows: copies_of(alloc, self.rows.as_slice())?,
        })
    }
}

// Copies of the rows.
fn copies_of(alloc: Global, rows: &[AnswerRow]) -> Result<Vec<AnswerRow>, NoMemory>
    ensures { IfOk result (λ copies. copies.items ≡ rows.now) }
{
    let mut copies = Vec::with_capacity(alloc, rows.len())?;
    'rows: for row in rows {
        copies.push(row.try_copy(alloc)?)?;
    }
    Ok(copies)
}
