ghost use Rattle.std.specs.Prelude.{◌≡◌, ◌↔◌, ◌-◌, ◌^◌, true, List, [], ◌∷◌, ◌++◌, min, sum_by};
ghost use Rattle.std.specs.Prelude.{Contains, MatchOption, IsTrue, IfOk};
ghost use Rattle.std.specs.declared.cmp.Ordering.TheVariants.{Less, Equal};
ghost use Rattle.answers.specs.Types.{Cell as TheCell};
ghost use Rattle.lorel_bound.specs.Answers.{AreAscendingRows, IsTooMuch, row_labels};
ghost use Rattle.lorel_bound.specs.Answers.{cell_labels as labels_in};
ghost use Rattle.answers.specs.Asked.{AreRows, AreTooMany};
ghost use Rattle.answers.specs.inside.Finding.{Finds};

use lore_base::NoMemory;
use lore_base::limits::{PATH_LABELS, ROWS};
use lorel_bound::{Answer, AnswerRow, Cell};
use std::alloc::Global;
use std::cmp::Ordering;
use std::marker::Model;

// With fewer rows, and fewer labels in their words, doubles are not looked for.
const FEW_ROWS: usize = 4_096;

const FEW_LABELS: u64 = 1_048_576;

/// Rows that were found, seen by contracts as their list. A row may stand there more than once,
/// until the rows are sorted and lose their doubles: whenever there are twice as many rows, or
/// labels in their words, as after the last time. So each row costs a share of a sort, no memory is
/// taken for a table, and doubles with long words never pile up.
#[derive(Drop)]
pub(crate) struct FoundRows {
    rows: Vec<AnswerRow>,
    // The labels in the words of all rows. It stands still at the greatest number of its type.
    labels: u64,
    // Each row came behind those before it.
    ascend: bool,
    // With so many rows they are put in order.
    enough_rows: usize,
    // With so many labels the rows are put in order.
    enough_labels: u64,
}

impl Model for FoundRows {
    ghost use Rattle.std.specs.Prelude.{◌≡◌, ◌-◌, ◌^◌, List, IsTrue, min, sum_by};
    ghost use Rattle.answers.specs.Types.{Cell};
    ghost use Rattle.lorel_bound.specs.Answers.{AreAscendingRows, row_labels};

    ghost Value = { List (List Cell) };

    ghost view = { λ f. f.rows.items };

    ghost invariant = { λ f. (IsTrue f.ascend → AreAscendingRows f.rows.items)
        × (f.labels ≡ min (2 ^ 64 - 1) (sum_by row_labels f.rows.items)) };
}

impl FoundRows {
    /// No row is found. Takes no memory.
    pub(crate) fn new(alloc: Global) -> FoundRows
        ensures { result ≡ [] }
    {
        FoundRows {
            rows: Vec::new(alloc),
            labels: 0,
            ascend: true,
            enough_rows: FEW_ROWS,
            enough_labels: FEW_LABELS,
        }
    }

    /// Notes the row down. Answers whether it is certain that there are more rows than `ROWS`, or
    /// more labels in their words than `PATH_LABELS`.
    pub(crate) fn add(&mut self, row: AnswerRow) -> Result<bool, NoMemory>
        ensures { IfOk result (λ cut. Finds (λ found. found ≡ row) self.old self.new cut) }
    {
        match order_behind(self.rows.as_slice(), &row) {
            Ordering::Equal => return Ok(false),
            Ordering::Less => {}
            Ordering::Greater => self.ascend = false,
        }
        let labels = self.labels.saturating_add(labels_of_row(row.as_slice()));
        self.rows.push(row)?;
        self.labels = labels;
        Ok(self.has_too_much())
    }

    /// The rows in their order, each once; None exactly where there are more than `ROWS`, or more
    /// than `PATH_LABELS` labels in their words. Takes no memory.
    pub(crate) fn into_answer(self) -> Option<Answer>
        ensures { MatchOption result (AreTooMany (Contains self)) (AreRows (Contains self)) }
    {
        let mut found = self;
        found.settle();
        if found.is_too_much() {
            return None;
        }
        let FoundRows { rows, .. } = found;
        Some(Answer::from_rows(rows))
    }

    // Whether it is certain that there is too much. Where enough has come, the rows are sorted.
    fn has_too_much(&mut self) -> bool
        ensures members { (row : List TheCell) → Contains self.new row ↔ Contains self.old row }
        ensures many { result ≡ true → AreAscendingRows self.new × IsTooMuch self.new }
    {
        if self.rows.len() >= self.enough_rows || self.labels >= self.enough_labels {
            self.settle();
        }
        self.ascend && self.is_too_much()
    }

    // Whether there are more rows than an answer may have, or more labels in their words.
    fn is_too_much(&self) -> bool
        ensures { IsTrue result ↔ IsTooMuch self.now }
    {
        self.rows.len() > ROWS || self.labels > PATH_LABELS as u64
    }

    // Puts the rows in their order, each once.
    fn settle(&mut self)
        ensures members { (row : List TheCell) → Contains self.new row ↔ Contains self.old row }
        ensures ascending { AreAscendingRows self.new }
    {
        self.sort();
        self.enough_rows = FEW_ROWS.max(self.rows.len().saturating_mul(2));
        self.enough_labels = FEW_LABELS.max(self.labels.saturating_mul(2));
    }

    // Where the rows don't ascend, sorts them, drops doubles, and counts the labels of those that are
    // left.
    fn sort(&mut self)
        ensures members { (row : List TheCell) → Contains self.new row ↔ Contains self.old row }
        ensures ascending { AreAscendingRows self.new }
    {
        if self.ascend {
            return;
        }
        self.rows.sort_unstable();
        self.rows.dedup();
        self.ascend = true;
        self.labels = labels_of_rows(self.rows.as_slice());
    }
}

// How the last of the rows compares with this one; Less where there is none.
fn order_behind(rows: &[AnswerRow], row: &AnswerRow) -> Ordering
    ensures equal { result ≡ Equal → Contains rows.now row.now }
    ensures less { result ≡ Less
        → AreAscendingRows rows.now → AreAscendingRows (rows.now ++ row.now ∷ []) }
{
    match rows.last() {
        Some(last) => last.cmp(row),
        None => Ordering::Less,
    }
}

// The labels in the words of rows. It stands still at the greatest number of its type.
fn labels_of_rows(rows: &[AnswerRow]) -> u64
    ensures { result ≡ min (2 ^ 64 - 1) (sum_by row_labels rows.now) }
{
    let mut count: u64 = 0;
    'rows: for row in rows {
        count = count.saturating_add(labels_of_row(row.as_slice()));
    }
    count
}

// The labels in the words of a row.
fn labels_of_row(cells: &[Cell]) -> u64
    ensures { result ≡ min (2 ^ 64 - 1) (row_labels cells.now) }
{
    let mut count: u64 = 0;
    'cells: for cell in cells {
        count = count.saturating_add(cell_labels(cell));
    }
    count
}

// The labels of a cell's word; none where it shows an object.
fn cell_labels(cell: &Cell) -> u64
    ensures { result ≡ labels_in cell.now }
{
    match cell {
        Cell::Object(_) => 0,
        Cell::Path(word) => word.len() as u64,
    }
}
