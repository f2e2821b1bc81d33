ghost use Rattle.std.specs.Prelude.{◌≡◌, ◌⊎◌, Some, None, IfSome, IfOk, IfErr, OnOk, OnErr};
ghost use Rattle.lore_base.specs.Deltas.{IsDelta};
ghost use Rattle.lore_base.specs.Verdicts.{IsToldBy};
ghost use Rattle.lore_store.specs.Stores.{IsPreparedFor, database_then};
ghost use Rattle.lorel_trees.specs.Trees.{statement_tree};
ghost use Rattle.lorel_trees.specs.Sound.{IsSound};
ghost use Rattle.statements.specs.Types.refusals;
ghost use Rattle.statements.specs.Forms.{IsChanging};
ghost use Rattle.statements.specs.Statements.{Counts};
ghost use Rattle.statements.specs.Stops.{told};
ghost use Rattle.statements.specs.Bounds.{ListsUnread};
ghost use Rattle.lore_db.specs.Types.{Refused};
ghost use Rattle.lore_db.specs.States.{Performs, StateCause, state_order, CountsNoStep};
ghost use Rattle.lore_db.specs.States.{present, ReadsInState, blocked_then};
ghost use Rattle.lore_db.specs.Freshness.{KeepsFresh};
ghost use Rattle.lore_db.specs.inside.Kept.{kept_moments, moments_then, IsLast, IsFullWith};

use crate::db::Db;
use doem_history::History;
use kept_history::make_change;
use lore_base::{Fault, Steps};
use lore_store::{Prepared, Store};
use lorel_trees::Statement;
use one_index::Blocks;
use statements::{PlannedChange, Reply, Stop, counts, planned};
use std::alloc::Global;
use std::sync::ledger::Ledger;

impl Db {
    /// Makes the changes that a statement lists over the database before it, and answers how many
    /// objects, edges and nodes of the guide there are then. Where a history is kept, the moment
    /// after is appended to it, also where nothing differs; a history that would be full is
    /// refused (`HistoryFull`). Blocks are kept no longer, and views that the change concerns are
    /// fresh no longer. No step is counted for numbers out of range by which objects were to be
    /// generated.
    pub(crate) fn change<L: Ledger>(
        &mut self,
        alloc: Global,
        statement: &Statement,
        steps: &mut Steps<L>,
    ) -> Result<Reply, Stop>
        requires sound { IsSound (statement_tree statement.now) }
        requires changing { IsChanging (statement_tree statement.now) }
        ensures ok { IfOk result (λ reply.
            Performs self.old.state (statement_tree statement.now) reply self.new.state) }
        ensures fresh { IfOk result (λ reply.
            KeepsFresh self.old (statement_tree statement.now) reply self.new) }
        ensures refused { let cause = StateCause self.old.state (statement_tree statement.now) in
            IfErr result (λ stop. IsToldBy cause state_order (told stop)) }
        ensures blocked { IfOk result (λ reply. self.new.blocked
            ≡ blocked_then self.old.blocked (statement_tree statement.now) reply) }
        ensures same { OnErr result (self.new ≡ self.old) }
        ensures uncounted { CountsNoStep self.old (statement_tree statement.now)
            → steps.new ≡ steps.old }
        ensures bounded { let tree = statement_tree statement.now in
            IfOk result (λ reply. ListsUnread tree
            → ReadsInState self.old.state tree reply steps.old steps.new) }
        ensures stopped { let tree = statement_tree statement.now in
            IfErr result (λ stop. IfSome (told stop) (λ refusal. ListsUnread tree
            → ReadsInState self.old.state tree (Refused refusal) steps.old steps.new)) }
    {
        let plan = planned(alloc, &self.store, statement, steps)?;
        let PlannedChange {
            prepared,
            new_labels,
        } = plan;
        let marks = self
            .views
            .marks(prepared.delta(), self.store.labels(), &new_labels)?;
        let reply = make(
            &mut self.store,
            &mut self.history,
            &mut self.blocks,
            prepared,
        )?;
        self.views.mark(&marks);
        Ok(reply)
    }
}

// Makes a change that was prepared, with the moment that it leads to where a history is kept.
// Blocks that are kept go, since they aren't those of what there is then. Answers how many
// objects, edges and nodes there are then. Nothing changes where the history would be full, or
// memory is refused.
fn make(
    store: &mut Store,
    history: &mut Option<History>,
    blocks: &mut Option<Blocks>,
    prepared: Prepared,
) -> Result<Reply, Stop>
    requires leads { IsPreparedFor store.old.db store.old.guide prepared }
    requires delta { IsDelta store.old.db.graph (database_then store.old.db prepared).graph
        prepared.graph.delta }
    requires last { IsLast history.old (present store.old.db) }
    ensures ok { OnOk result (store.new.db ≡ database_then store.old.db prepared) }
    ensures moments { let after = present (database_then store.old.db prepared) in
        OnOk result (kept_moments history.new ≡ moments_then (kept_moments history.old) after) }
    ensures last { OnOk result (IsLast history.new (present store.new.db)) }
    ensures light { let after = present (database_then store.old.db prepared) in
        OnOk result (¬ IsFullWith history.old after) }
    ensures counts { IfOk result (Counts store.new.db) }
    ensures blocked { OnOk result (blocks.new ≡ None) }
    ensures same { OnErr result (store.new.db ≡ store.old.db) }
    ensures same_blocks { OnErr result (blocks.new ≡ blocks.old) }
    ensures same_moments { OnErr result (kept_moments history.new ≡ kept_moments history.old) }
    ensures same_last { OnErr result (IsLast history.new (present store.new.db)) }
    ensures refused { let after = present (database_then store.old.db prepared) in
        IfErr result (λ stop. (told stop ≡ None)
        ⊎ ((told stop ≡ Some refusals.HistoryFull) × IsFullWith history.old after)) }
{
    match make_change(store, history, prepared) {
        Ok(()) => {
            *blocks = None;
            Ok(counts(store))
        }
        Err(fault) => Err(Stop::by(fault.refusal())),
    }
}
