ghost use Rattle.std.specs.Prelude.{◌≡◌, false, length, All, IfOk, OnOk};
ghost use Rattle.std.specs.List.{AllZip};
ghost use Rattle.lorel_bound.specs.Bound.{bound_tree};
ghost use Rattle.lorel_bound.specs.Runnable.{IsRunnable, IsCellWithin};
ghost use Rattle.lorel_bound.specs.SlotRows.{IsObjectCell};
ghost use Rattle.answers.specs.inside.Showing.{IsReadyObject, IsReadyWithin, IsMadeReady};
ghost use Rattle.answers.specs.inside.Showing.{Reads, ReadsRow};

use crate::slot_words::SlotWords;
use index_traits::{Adjacent, Row};
use lore_base::{NoMemory, Steps};
use lorel_bound::{AnswerRow, Bound, Cell, CellOf, Start};
use oem_labels::LabelTable;
use std::alloc::Global;
use std::sync::ledger::Ledger;

// What a cell shows, made ready.
#[derive(Drop)]
pub(crate) enum ReadyCell<'a, A: Adjacent> {
    Object(Start),
    Word(SlotWords<'a, A>),
}

// Whether one of the cells shows a word.
pub(crate) fn show_words(cells: &[CellOf]) -> bool
    ensures { All IsObjectCell cells.now → result ≡ false }
{
    'cells: for cell in cells {
        if let CellOf::PathOf(_) = cell {
            return true;
        }
    }
    false
}

// The cells of the bound select, made ready.
pub(crate) fn ready_cells<'a, A: Adjacent>(
    alloc: Global,
    bound: &'a Bound,
    graph: &'a A,
    labels: &'a LabelTable,
) -> Result<Vec<ReadyCell<'a, A>>, NoMemory>
    requires { IsRunnable (bound_tree bound.now) }
    ensures made { IfOk result (λ cells. AllZip (IsMadeReady labels.now (A.edges graph.now)
        bound.now.ranges) bound.now.cells cells.items) }
    ensures within { IfOk result (λ cells. All IsReadyWithin cells.items) }
{
    let mut cells = Vec::new(alloc);
    'cells: for cell in bound.cells.as_slice() {
        cells.push(ready_cell(alloc, bound, *cell, graph, labels)?)?;
    }
    Ok(cells)
}

// One of them.
fn ready_cell<'a, A: Adjacent>(
    alloc: Global,
    bound: &'a Bound,
    cell: CellOf,
    graph: &'a A,
    labels: &'a LabelTable,
) -> Result<ReadyCell<'a, A>, NoMemory>
    requires runnable { IsRunnable (bound_tree bound.now) }
    requires within { IsCellWithin (length bound.now.ranges) cell }
    ensures made { IfOk result (IsMadeReady labels.now (A.edges graph.now) bound.now.ranges cell) }
    ensures within { IfOk result IsReadyWithin }
{
    match cell {
        CellOf::Object(start) => Ok(ReadyCell::Object(start)),
        CellOf::PathOf(slot) => {
            let range = &bound.ranges.as_slice()[slot as usize];
            let words = SlotWords::new(alloc, graph, labels, range, slot)?;
            Ok(ReadyCell::Word(words))
        }
    }
}

// What the cell shows of the row; None where it shows nothing.
fn read<A: Adjacent, L: Ledger>(
    alloc: Global,
    cell: &mut ReadyCell<'_, A>,
    row: &Row,
    steps: &mut Steps<L>,
) -> Result<Option<Cell>, NoMemory>
    requires { IsReadyWithin cell.old }
    ensures same { cell.new ≡ cell.old }
    ensures cell { IfOk result (Reads row.now cell.old) }
    ensures quiet { IsReadyObject cell.old → OnOk result (steps.new ≡ steps.old) }
{
    match cell {
        ReadyCell::Object(start) => Ok(Some(Cell::Object(start.object(row)))),
        ReadyCell::Word(words) => match words.word(alloc, row, steps)? {
            Some(word) => Ok(Some(Cell::Path(word))),
            None => Ok(None),
        },
    }
}

// The row that the cells show of the row of slots; None where one of them shows nothing.
pub(crate) fn read_row<A: Adjacent, L: Ledger>(
    alloc: Global,
    cells: &mut [ReadyCell<'_, A>],
    row: &Row,
    steps: &mut Steps<L>,
) -> Result<Option<AnswerRow>, NoMemory>
    requires { All IsReadyWithin cells.old }
    ensures same { cells.new ≡ cells.old }
    ensures row { IfOk result (ReadsRow row.now cells.old) }
    ensures quiet { All IsReadyObject cells.old → OnOk result (steps.new ≡ steps.old) }
{
    let mut shown = AnswerRow::new(alloc);
    'cells: for i in 0..cells.len() {
        match read(alloc, &mut cells[i], row, steps)? {
            Some(cell) => shown.push(cell)?,
            None => return Ok(None),
        }
    }
    Ok(Some(shown))
}
