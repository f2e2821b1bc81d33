ghost use Rattle.std.specs.Prelude.{◌≡◌, List, map, IfOk, IfErr, OnOk};
ghost use Rattle.statements.specs.Types.{Oid as TheOid};
ghost use Rattle.lore_base.specs.Verdicts.{IsClear, IsToldBy};
ghost use Rattle.lorel_trees.specs.Trees.{statement_tree};
ghost use Rattle.lorel_trees.specs.Sound.{IsSound};
ghost use Rattle.lorel_bound.specs.Bound.{bound_tree};
ghost use Rattle.lorel_bound.specs.Runnable.{IsRunnable};
ghost use Rattle.lorel_bound.specs.SlotRows.{IsSlotRow};
ghost use Rattle.updates.specs.Causes.{IsUpdate};
ghost use Rattle.oem_text.specs.Faults.{local_refusal};
ghost use Rattle.oem_text.specs.Parts.{local_order};
ghost use Rattle.statements.specs.Types.cells;
ghost use Rattle.statements.specs.Effects.{object_cells, pair_of, AreRowsOf};
ghost use Rattle.statements.specs.Statements.{Cause, cause_order};
ghost use Rattle.statements.specs.inside.Listed.{ListsChanges};
ghost use Rattle.statements.specs.Stops.{told};
ghost use Rattle.statements.specs.inside.Stages.{found_order};
ghost use Rattle.statements.specs.inside.Starts.{HasNamedStarts};
ghost use Rattle.answers.specs.Asked.{AreRows};
ghost use Rattle.statements.specs.inside.Locals.{HasSoundLocals, MadeLocals, StopsRows};

use crate::selects::{bound, found};
use crate::stops::Stop;
use lore_base::{Changes, NoMemory, Oid, Steps};
use lore_store::Store;
use lorel_bound::{Answer, AnswerRow, Bound, Cell};
use lorel_trees::{Statement, rows_form};
use oem_text::{LocalFault, check_locals};
use std::alloc::Global;
use std::sync::ledger::Ledger;
use updates::{PairList, changes_of};

/// The changes of an update, one of the four forms, all over the state before.
pub(crate) fn update_changes<L: Ledger>(
    alloc: Global,
    store: &Store,
    statement: &Statement,
    steps: &mut Steps<L>,
) -> Result<Changes, Stop>
    requires sound { IsSound (statement_tree statement.now) }
    requires update { IsUpdate (statement_tree statement.now) }
    ensures lists { IfOk result (ListsChanges store.now.db (statement_tree statement.now)) }
    ensures refused { IfErr result (λ stop.
        IsToldBy (Cause store.now.db (statement_tree statement.now)) cause_order (told stop)) }
{
    let rows = update_rows(alloc, store, statement, steps)?;
    let (graph, labels) = (store.graph(), store.labels());
    Ok(changes_of(alloc, statement, &rows, graph, labels)?)
}

// The rows of an update, as pairs.
fn update_rows<L: Ledger>(
    alloc: Global,
    store: &Store,
    statement: &Statement,
    steps: &mut Steps<L>,
) -> Result<PairList, Stop>
    requires sound { IsSound (statement_tree statement.now) }
    requires update { IsUpdate (statement_tree statement.now) }
    ensures rows { let tree = statement_tree statement.now in
        IfOk result (λ pairs. (rows : List (List TheOid)) × AreRowsOf store.now.db tree rows
        × (pairs ≡ map pair_of rows)) }
    ensures ok { let cause = Cause store.now.db (statement_tree statement.now) in
        OnOk result (IsClear cause found_order) }
    ensures refused { let cause = Cause store.now.db (statement_tree statement.now) in
        IfErr result (λ stop. IsToldBy cause found_order (told stop)) }
{
    let Some(query) = rows_form(alloc, statement)? else {
        unreachable!();
    };
    let bound = bound(alloc, store, &query);
    drop(query);
    let bound = bound?;
    let answer = sound_rows(alloc, store, statement, &bound, steps);
    drop(bound);
    Ok(pairs_of(alloc, &answer?)?)
}

// The rows of an update's bound select. Locals are looked at before rows are found.
fn sound_rows<L: Ledger>(
    alloc: Global,
    store: &Store,
    statement: &Statement,
    bound: &Bound,
    steps: &mut Steps<L>,
) -> Result<Answer, Stop>
    requires update { IsUpdate (statement_tree statement.now) }
    requires runnable { IsRunnable (bound_tree bound.now) }
    requires named { HasNamedStarts store.now.db.graph.names (bound_tree bound.now) }
    ensures locals { OnOk result (HasSoundLocals (statement_tree statement.now)) }
    ensures rows { IfOk result (AreRows (IsSlotRow store.now.db (bound_tree bound.now))) }
    ensures refused { let tree = statement_tree statement.now in
        IfErr result (λ stop. StopsRows store.now.db tree (bound_tree bound.now) (told stop)) }
{
    check_literal(alloc, statement)?;
    found(alloc, store, bound, steps)
}

// Looks at the locals of the literal that is copied, if there is one.
fn check_literal(alloc: Global, statement: &Statement) -> Result<(), LocalFault>
    requires { IsUpdate (statement_tree statement.now) }
    ensures ok { OnOk result (HasSoundLocals (statement_tree statement.now)) }
    ensures refused { let tree = statement_tree statement.now in
        IfErr result (λ fault. IsToldBy (MadeLocals tree) local_order (local_refusal fault)) }
{
    match statement {
        Statement::AddNew { literal, .. } => check_locals(alloc, literal),
        _ => Ok(()),
    }
}

// The rows as pairs.
fn pairs_of(alloc: Global, answer: &Answer) -> Result<PairList, NoMemory>
    ensures { IfOk result (λ pairs. (rows : List (List TheOid))
        → answer.now ≡ map object_cells rows → pairs ≡ map pair_of rows) }
{
    let mut pairs = PairList::with_capacity(alloc, answer.len())?;
    'rows: for row in answer.as_slice() {
        pairs.push(pair_of(row))?;
    }
    Ok(pairs)
}

// The objects of a row: that of its first cell, and that of its second one, if it has one.
fn pair_of(row: &AnswerRow) -> (Oid, Option<Oid>)
    ensures { (objects : List TheOid) → row.now ≡ object_cells objects → result ≡ pair_of objects }
{
    match row.as_slice() {
        [] => (Oid(0), None),
        [first] => (object_of(first), None),
        [first, second, ..] => (object_of(first), Some(object_of(second))),
    }
}

// The object that a cell shows; 0, which is none, where it shows a word.
fn object_of(cell: &Cell) -> Oid
    ensures { (oid : TheOid) → cell.now ≡ cells.Object oid → result ≡ oid }
{
    match cell {
        Cell::Object(oid) => *oid,
        Cell::Path(_) => Oid(0),
    }
}
