ghost use Rattle.std.specs.Prelude.{◌≡◌, ◌++◌, ◌↔◌, IfSome, IfOk, IfErr, OnOk, IsTrue};
ghost use Rattle.lore_base.specs.Deltas.{IsDelta};
ghost use Rattle.lore_base.specs.Verdicts.{IsToldBy};
ghost use Rattle.lore_store.specs.Stores.{IsPreparedFor, database_then};
ghost use Rattle.lorel_trees.specs.Trees.{statement_tree};
ghost use Rattle.lorel_trees.specs.Sound.{IsSound};
ghost use Rattle.statements.specs.Bounds.{ListsUnread, ReadsWithinEffects, ReadsToRefuse};
ghost use Rattle.statements.specs.Forms.{IsChanging};
ghost use Rattle.statements.specs.Statements.{Cause, cause_order, Counts};
ghost use Rattle.statements.specs.Made.{IsMade};
ghost use Rattle.statements.specs.Stops.{told};
ghost use Rattle.statements.specs.Uncounted.{ReadsNoEdge};

use crate::listing::listed;
use crate::replies::Reply;
use crate::stops::Stop;
use lore_base::{Changes, Steps, TextList};
use lore_store::{Prepared, Store};
use lorel_trees::Statement;
use std::alloc::Global;
use std::sync::ledger::Ledger;

/// Whether the statement can list changes.
pub fn is_changing(statement: &Statement) -> bool
    ensures { IsTrue result ↔ IsChanging (statement_tree statement.now) }
{
    matches!(
        statement,
        Statement::Load { .. }
            | Statement::Name { .. }
            | Statement::Unname { .. }
            | Statement::Assign { .. }
            | Statement::AddNew { .. }
            | Statement::AddLink { .. }
            | Statement::Remove { .. }
            | Statement::Generate(..)
    )
}

/// What a statement makes of the database by the changes that it lists: all that is to be put in
/// place, and of that the texts of the labels that are new.
#[derive(Drop)]
pub struct PlannedChange {
    pub prepared: Prepared,
    pub new_labels: TextList,
}

/// Works out what a statement that lists changes makes of the database, which stays as it is: its
/// changes are made, and what no name walks to then vanishes. Refused is what a statement is
/// refused for (`Cause`). No step is counted for numbers out of range by which objects were to be
/// generated. For a load, a name that is taken away and generated objects no more is read than
/// four times the work of their changes, and nothing where they are refused before these are
/// prepared.
pub fn planned<L: Ledger>(
    alloc: Global,
    store: &Store,
    statement: &Statement,
    steps: &mut Steps<L>,
) -> Result<PlannedChange, Stop>
    requires sound { IsSound (statement_tree statement.now) }
    requires changing { IsChanging (statement_tree statement.now) }
    ensures leads { IfOk result (λ plan. IsPreparedFor store.now.db store.now.guide plan.prepared) }
    ensures delta { IfOk result (λ plan. IsDelta store.now.db.graph
        (database_then store.now.db plan.prepared).graph plan.prepared.graph.delta) }
    ensures labels { IfOk result (λ plan. (database_then store.now.db plan.prepared).labels
        ≡ store.now.db.labels ++ plan.new_labels) }
    ensures made { IfOk result (λ plan. IsMade store.now.db (statement_tree statement.now)
        (database_then store.now.db plan.prepared)) }
    ensures refused { IfErr result (λ stop.
        IsToldBy (Cause store.now.db (statement_tree statement.now)) cause_order (told stop)) }
    ensures uncounted { ReadsNoEdge store.now.db (statement_tree statement.now)
        → steps.new ≡ steps.old }
    ensures bounded { let tree = statement_tree statement.now in
        OnOk result (ListsUnread tree
        → ReadsWithinEffects store.now.db tree steps.old steps.new) }
    ensures stopped { let tree = statement_tree statement.now in
        IfErr result (λ stop. IfSome (told stop) (λ refusal. ListsUnread tree
        → ReadsToRefuse store.now.db tree refusal steps.old steps.new)) }
{
    // That the database is valid is known where its graph is looked at.
    let _graph = store.graph();
    let changes = listed(alloc, store, statement, steps)?;
    let prepared = store.prepare(alloc, &changes, steps)?;
    let Changes {
        labels: new_labels,
        ..
    } = changes;
    Ok(PlannedChange {
        prepared,
        new_labels,
    })
}

/// The reply that counts what the database holds.
pub fn counts(store: &Store) -> Reply
    ensures { Counts store.now.db result }
{
    let graph = store.graph();
    Reply::Changed {
        objects: graph.objects(),
        edges: graph.edges(),
        nodes: store.guide().len(),
    }
}
