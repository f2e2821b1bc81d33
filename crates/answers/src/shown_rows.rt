ghost use Rattle.std.specs.Prelude.{◌≡◌, ◌⊎◌, Some, [], All, Contains, IfOk, OnOk, MatchOption};
ghost use Rattle.std.specs.Prelude.{IsPermutation};
ghost use Rattle.lorel_bound.specs.Bound.{bound_tree};
ghost use Rattle.lorel_bound.specs.Runnable.{IsRunnable};
ghost use Rattle.lorel_bound.specs.SlotRows.{ShowsObjects};
ghost use Rattle.answers.specs.Asked.{AreRows, AreTooMany};
ghost use Rattle.answers.specs.inside.Finding.{Finds};
ghost use Rattle.answers.specs.inside.Showing.{IsReadyObject, IsReadyWithin, ReadsRow, ReadsSome};
ghost use Rattle.answers.specs.inside.Showing.{IsNoted, ShowsNext, AreNow, AreOfOne};

use crate::found_rows::FoundRows;
use crate::ready_cells::{ReadyCell, read_row, ready_cells, show_words};
use index_traits::{Adjacent, Row};
use lore_base::{NoMemory, Steps};
use lorel_bound::{Answer, Bound};
use oem_labels::LabelTable;
use std::alloc::Global;
use std::marker::Model;
use std::mem;
use std::sync::ledger::Ledger;

// So many rows of slots wait at most before their words are read.
const WAITING: usize = 65_536;

// The rows that cells show of rows of slots, as those come. Where a cell shows a word, rows of
// slots wait, and then those whose words start at one object are read side by side: one search
// serves them.
#[derive(Drop)]
pub(crate) struct ShownRows<'a, A: Adjacent> {
    graph: &'a A,
    labels: &'a LabelTable,
    bound: &'a Bound,
    cells: Vec<ReadyCell<'a, A>>,
    has_words: bool,
    waiting: Vec<Row>,
    found: FoundRows,
}

impl<'a, A: Adjacent> Model for ShownRows<'a, A> {
    ghost use Rattle.std.specs.Prelude.{◌≡◌, false, All};
    ghost use Rattle.std.specs.List.{AllZip};
    ghost use Rattle.std.specs.Coded.{codes};
    ghost use Rattle.lore_base.specs.contracts.paths.Path as path_contract;
    ghost use Rattle.lorel_bound.specs.contracts.conditions.BoundCond as bound_cond_contract;
    ghost use Rattle.lorel_bound.specs.Bound.{bound_tree};
    ghost use Rattle.lorel_bound.specs.SlotRows.{ShowsObjects};
    ghost use Rattle.answers.specs.inside.Showing.{RowsShown, IsMadeReady, IsReadyWithin};

    ghost Value = { RowsShown };

    ghost coded = { Prim.hlevel (
      codes,
      path_contract.the_row.coded,
      bound_cond_contract.the_row.coded,
    ) };

    ghost view = { λ shown. record {
      labels = shown.labels.now;
      edges = A.edges shown.graph.now;
      bound = shown.bound.now;
      waiting = shown.waiting.items;
      found = shown.found;
    } };

    ghost invariant = { λ shown.
        AllZip (IsMadeReady shown.labels.now (A.edges shown.graph.now) shown.bound.now.ranges)
        shown.bound.now.cells shown.cells.items
        × All IsReadyWithin shown.cells.items
        × (ShowsObjects (bound_tree shown.bound.now) → shown.has_words ≡ false) };
}

impl<'a, A: Adjacent> ShownRows<'a, A> {
    // No row has come.
    pub(crate) fn new(
        alloc: Global,
        bound: &'a Bound,
        graph: &'a A,
        labels: &'a LabelTable,
    ) -> Result<ShownRows<'a, A>, NoMemory>
        requires { IsRunnable (bound_tree bound.now) }
        ensures { IfOk result (λ shown. shown ≡ record {
          labels = labels.now;
          edges = A.edges graph.now;
          bound = bound.now;
          waiting = [];
          found = [];
        }) }
    {
        Ok(ShownRows {
            graph,
            labels,
            bound,
            cells: ready_cells(alloc, bound, graph, labels)?,
            has_words: show_words(bound.cells.as_slice()),
            waiting: Vec::new(alloc),
            found: FoundRows::new(alloc),
        })
    }

    // Notes down what the cells show of the row of slots. Answers whether it is certain that there
    // is too much.
    pub(crate) fn add<L: Ledger>(
        &mut self,
        alloc: Global,
        row: Row,
        steps: &mut Steps<L>,
    ) -> Result<bool, NoMemory>
        ensures select { AreOfOne self.old self.new }
        ensures rows { IfOk result (AreNow
            (λ own. IsNoted self.old own ⊎ ShowsNext self.old row own) (IsNoted self.new)) }
        ensures quiet { ShowsObjects (bound_tree self.old.bound)
            → OnOk result ((steps.new ≡ steps.old) × (self.new.waiting ≡ self.old.waiting)) }
    {
        if !self.has_words {
            return note(
                alloc,
                self.cells.as_mut_slice(),
                &row,
                &mut self.found,
                steps,
            );
        }
        self.waiting.push(row)?;
        if self.waiting.len() < WAITING {
            return Ok(false);
        }
        self.read_waiting(alloc, steps)
    }

    // All rows that are noted, each once, in their order; None exactly where they are too much. No
    // row is to be added from then on.
    pub(crate) fn take_answer<L: Ledger>(
        &mut self,
        alloc: Global,
        steps: &mut Steps<L>,
    ) -> Result<Option<Answer>, NoMemory>
        ensures rows { IfOk result (λ answer. MatchOption answer
            (AreTooMany (IsNoted self.old)) (AreRows (IsNoted self.old))) }
        ensures quiet { self.old.waiting ≡ [] → OnOk result (steps.new ≡ steps.old) }
    {
        if self.read_waiting(alloc, steps)? {
            return Ok(None);
        }
        let found = mem::replace(&mut self.found, FoundRows::new(alloc));
        Ok(found.into_answer())
    }

    // Reads the rows of slots that wait, so that none waits. Answers whether it is certain that
    // there is too much.
    fn read_waiting<L: Ledger>(
        &mut self,
        alloc: Global,
        steps: &mut Steps<L>,
    ) -> Result<bool, NoMemory>
        ensures select { AreOfOne self.old self.new }
        ensures rows { IfOk result (AreNow (IsNoted self.old) (IsNoted self.new)) }
        ensures none { OnOk result (self.new.waiting ≡ []) }
        ensures quiet { self.old.waiting ≡ [] → OnOk result (steps.new ≡ steps.old) }
    {
        order(self.cells.as_slice(), &mut self.waiting)?;
        let cut = note_each(
            alloc,
            self.cells.as_mut_slice(),
            self.waiting.as_slice(),
            &mut self.found,
            steps,
        )?;
        self.waiting.clear();
        Ok(cut)
    }
}

// Notes down what the cells show of the row. Answers whether it is certain that there is too much.
fn note<A: Adjacent, L: Ledger>(
    alloc: Global,
    cells: &mut [ReadyCell<'_, A>],
    row: &Row,
    found: &mut FoundRows,
    steps: &mut Steps<L>,
) -> Result<bool, NoMemory>
    requires { All IsReadyWithin cells.old }
    ensures same { cells.new ≡ cells.old }
    ensures found { IfOk result (Finds (λ own. ReadsRow row.now cells.old (Some own))
        found.old found.new) }
    ensures quiet { All IsReadyObject cells.old → OnOk result (steps.new ≡ steps.old) }
{
    match read_row(alloc, cells, row, steps)? {
        Some(shown) => found.add(shown),
        None => Ok(false),
    }
}

// Notes down what the cells show of the rows, or of some of them where it is certain with these
// that there is too much, and answers whether it is.
fn note_each<A: Adjacent, L: Ledger>(
    alloc: Global,
    cells: &mut [ReadyCell<'_, A>],
    rows: &[Row],
    found: &mut FoundRows,
    steps: &mut Steps<L>,
) -> Result<bool, NoMemory>
    requires { All IsReadyWithin cells.old }
    ensures same { cells.new ≡ cells.old }
    ensures found { IfOk result (Finds (ReadsSome cells.old rows.now) found.old found.new) }
    ensures quiet { rows.now ≡ [] → OnOk result (steps.new ≡ steps.old) }
{
    'rows: for row in rows {
        if note(alloc, cells, row, found, steps)? {
            return Ok(true);
        }
    }
    Ok(false)
}

// Puts rows in an order in which those stand side by side of which a word is read from one object.
fn order<A: Adjacent>(cells: &[ReadyCell<'_, A>], rows: &mut Vec<Row>) -> Result<(), NoMemory>
    ensures { IsPermutation rows.old.items rows.new.items }
{
    'cells: for cell in cells.iter().rev() {
        order_by(cell, rows)?;
    }
    Ok(())
}

// Puts rows in the order of the objects from which the cell's word is read. Those of one object
// keep their order.
fn order_by<A: Adjacent>(cell: &ReadyCell<'_, A>, rows: &mut Vec<Row>) -> Result<(), NoMemory>
    ensures { IsPermutation rows.old.items rows.new.items }
{
    if let ReadyCell::Word(words) = cell {
        rows.sort_by_key(|row| words.start(row).0)?;
    }
    Ok(())
}
