ghost use Rattle.std.specs.Prelude.{◌≡◌, ◌⊎◌, ◌↔◌, [], ◌∷◌, true, false, Some, None};
ghost use Rattle.std.specs.Prelude.{IsTrue, MatchOption, IfOk, IfErr, OnOk, OnErr};
ghost use Rattle.lore_base.specs.Verdicts.{IsToldBy};
ghost use Rattle.lorel_trees.specs.Trees.{statement_tree, history as keeping};
ghost use Rattle.lorel_trees.specs.Sound.{IsSound};
ghost use Rattle.doem_history.specs.Moments.{IsFull};
ghost use Rattle.doem_history.specs.Histories.{moments_of};
ghost use Rattle.statements.specs.Types.refusals;
ghost use Rattle.statements.specs.Forms.{IsChanging, IsOfSession, IsOfBlocks};
ghost use Rattle.statements.specs.Stops.{told, OnReply};
ghost use Rattle.lore_db.specs.States.{Performs, StateCause, state_order, CountsNoStep};
ghost use Rattle.lore_db.specs.States.{IsRestore, present, blocked_then};
ghost use Rattle.lore_db.specs.Freshness.{KeepsFresh, IsRefused};
ghost use Rattle.lore_db.specs.inside.Kept.{kept_moments, IsRestored};

use crate::db::Db;
use doem_history::History;
use lore_base::{Fault, Refusal, Steps};
use lore_store::Store;
use lorel_trees::Statement;
use one_index::Blocks;
use statements::{Reply, Stop, all_edges, counts};
use std::alloc::Global;
use std::sync::ledger::Ledger;

impl Db {
    /// Keeps a history from then on, or none.
    pub(crate) fn keep<L: Ledger>(
        &mut self,
        alloc: Global,
        on: bool,
        steps: &mut Steps<L>,
    ) -> Result<Reply, Stop>
        ensures ok { IfOk result (λ reply.
            Performs self.old.state (keeping on) reply self.new.state) }
        ensures fresh { IfOk result (λ reply. KeepsFresh self.old (keeping on) reply self.new) }
        ensures refused { IfErr result (λ stop.
            IsToldBy (StateCause self.old.state (keeping on)) state_order (told stop)) }
        ensures blocked { self.new.blocked ≡ self.old.blocked }
        ensures same { OnErr result (self.new ≡ self.old) }
        ensures uncounted { OnReply result
            (CountsNoStep self.old (keeping on) → steps.new ≡ steps.old) }
    {
        if on {
            self.begin(alloc, steps)
        } else {
            Ok(self.end())
        }
    }

    // Keeps the present moment alone from then on. Refused is one that weighs more than a history
    // may (`HistoryFull`): then the history that was kept stays. A step is counted for each object
    // and one for each edge.
    fn begin<L: Ledger>(&mut self, alloc: Global, steps: &mut Steps<L>) -> Result<Reply, Stop>
        ensures ok { IfOk result (λ reply.
            Performs self.old.state (keeping true) reply self.new.state) }
        ensures fresh { IfOk result (λ reply. KeepsFresh self.old (keeping true) reply self.new) }
        ensures refused { IfErr result (λ stop.
            IsToldBy (StateCause self.old.state (keeping true)) state_order (told stop)) }
        ensures blocked { self.new.blocked ≡ self.old.blocked }
        ensures same { OnErr result (self.new ≡ self.old) }
    {
        let history = history_begun(alloc, &self.store, steps)?;
        self.history = Some(history);
        Ok(counts(&self.store))
    }

    // Keeps no history from then on.
    fn end(&mut self) -> Reply
        ensures ok { Performs self.old.state (keeping false) result self.new.state }
        ensures blocked { self.new.blocked ≡ self.old.blocked }
        ensures fresh { KeepsFresh self.old (keeping false) result self.new }
    {
        self.history = None;
        counts(&self.store)
    }

    /// Executes a statement that lists no changes: the names, objects and edges stay, but where a
    /// dump is restored. That is done only where no history is kept (`NotFresh`), and blocks are
    /// kept no longer then.
    pub(crate) fn execute_still<L: Ledger>(
        &mut self,
        alloc: Global,
        statement: &Statement,
        steps: &mut Steps<L>,
    ) -> Result<Reply, Stop>
        requires sound { IsSound (statement_tree statement.now) }
        requires still { ¬ IsChanging (statement_tree statement.now) }
        requires plain { ¬ IsOfSession (statement_tree statement.now) }
        requires unblocked { ¬ IsOfBlocks (statement_tree statement.now) }
        ensures ok { IfOk result (λ reply.
            Performs self.old.state (statement_tree statement.now) reply self.new.state) }
        ensures fresh { IfOk result (λ reply.
            KeepsFresh self.old (statement_tree statement.now) reply self.new) }
        ensures refused { let cause = StateCause self.old.state (statement_tree statement.now) in
            IfErr result (λ stop. IsToldBy cause state_order (told stop)) }
        ensures blocked { IfOk result (λ reply. self.new.blocked
            ≡ blocked_then self.old.blocked (statement_tree statement.now) reply) }
        ensures same { OnErr result (self.new ≡ self.old) }
        ensures uncounted { OnReply result
            (CountsNoStep self.old (statement_tree statement.now) → steps.new ≡ steps.old) }
    {
        if keeps_out(&self.history, statement) {
            return Err(Stop::Refused(Refusal::NotFresh));
        }
        let reply = statements::execute(alloc, &mut self.store, statement, steps)?;
        // That the database is valid is known where its graph is looked at.
        let _graph = self.store.graph();
        leave(&mut self.blocks, statement, &reply);
        Ok(reply)
    }
}

// Whether a history is kept, and the statement restores a dump.
fn keeps_out(history: &Option<History>, statement: &Statement) -> bool
    ensures { IsTrue result ↔ MatchOption (kept_moments history.now) ⊥
        (λ moments. IsRestore (statement_tree statement.now)) }
{
    match history {
        Some(_) => is_restore(statement),
        None => false,
    }
}

// Whether the statement restores a dump.
fn is_restore(statement: &Statement) -> bool
    ensures { IsTrue result ↔ IsRestore (statement_tree statement.now) }
{
    matches!(statement, Statement::Restore(_))
}

// Whether the reply is a refusal.
fn is_refusal(reply: &Reply) -> bool
    ensures { IsTrue result ↔ IsRefused reply.now }
{
    matches!(reply, Reply::Refused(_))
}

// Takes the blocks away where the statement with this reply restored a dump.
fn leave(blocks: &mut Option<Blocks>, statement: &Statement, reply: &Reply)
    ensures gone { IsRestored (statement_tree statement.now) reply.now → blocks.new ≡ None }
    ensures kept { ¬ IsRestored (statement_tree statement.now) reply.now
        → blocks.new ≡ blocks.old }
{
    if !is_restore(statement) {
        return;
    }
    if is_refusal(reply) {
        return;
    }
    *blocks = None;
}

// A history of the present moment alone.
fn history_begun<L: Ledger>(
    alloc: Global,
    store: &Store,
    steps: &mut Steps<L>,
) -> Result<History, Stop>
    ensures ok { IfOk result (λ history. moments_of history ≡ present store.now.db ∷ []) }
    ensures light { OnOk result (¬ IsFull (present store.now.db ∷ [])) }
    ensures refused { IfErr result (λ stop. (told stop ≡ None)
        ⊎ ((told stop ≡ Some refusals.HistoryFull) × IsFull (present store.now.db ∷ []))) }
{
    let edges = all_edges(alloc, store.graph(), steps)?;
    match kept_history::begun(alloc, store, &edges) {
        Ok(history) => Ok(history),
        Err(fault) => Err(Stop::by(fault.refusal())),
    }
}
