ghost use Rattle.std.specs.Prelude.{◌≡◌, [], None, Some, false, Contains, slice_get, is_some};
ghost use Rattle.std.specs.Prelude.{IfOk, IfErr, OnOk, OnErr, IfSome, IfNone};
ghost use Rattle.std.specs.Option.{option_copied};
ghost use Rattle.lore_base.specs.Databases.{IsLive};
ghost use Rattle.lore_base.specs.Verdicts.{IsToldBy};
ghost use Rattle.lorel_trees.specs.Trees.{statement_tree};
ghost use Rattle.lorel_trees.specs.Sound.{IsSound};
ghost use Rattle.doem_history.specs.Histories.{moments_of, last_moment};
ghost use Rattle.statements.specs.Types.{Value as TheValue};
ghost use Rattle.statements.specs.Forms.{IsOfSession, IsOfBlocks};
ghost use Rattle.statements.specs.Stops.{told, OnReply};
ghost use Rattle.lore_db.specs.States.{Performs, StateCause, state_order, CountsNoStep};
ghost use Rattle.statements.specs.Bounds.{ListsUnread};
ghost use Rattle.lore_db.specs.Types.{Refused};
ghost use Rattle.lore_db.specs.States.{new_state, present, objects_at, ReadsInState};
ghost use Rattle.lore_db.specs.States.{BlocksTellAll, blocked_then};
ghost use Rattle.lore_db.specs.Freshness.{KeepsFresh};
ghost use Rattle.statements.specs.Blocks.{AreBlocksIn};
ghost use Rattle.view_laws.specs.Freshness.{queries_of, fresh_of, AreFreshOver};

use doem_history::History;
use index_traits::ValueOf;
use live_views::Views;
use lore_base::{Label, NoMemory, OemText, Oid, Steps, Value};
use lore_store::Store;
use lorel_trees::Statement;
use one_index::Blocks;
use statements::{Reply, Stop, is_changing, reply_of};
use std::alloc::Global;
use std::marker::Model;
use std::sync::ledger::Ledger;

/// A database that statements are executed on, and the history, the blocks and the views that are
/// kept of it. Contracts see the state, which is that database, the moments of the history, and
/// the selects of the views; whether blocks are kept: those that there are are the database's, so
/// that nothing is lost with them; and which views are fresh.
#[derive(Drop)]
pub struct Db {
    pub(crate) store: Store,
    pub(crate) history: Option<History>,
    pub(crate) blocks: Option<Blocks>,
    pub(crate) views: Views,
}

impl Model for Db {
    ghost use Rattle.std.specs.Coded.{codes};
    ghost use Rattle.lore_db.specs.States.{Kept};
    ghost use Rattle.lore_db.specs.Codes.{path_code, cond_code};
    ghost use Rattle.lore_db.specs.inside.Kept.{kept_with, IsKept};

    ghost Value = { Kept };

    ghost coded = { Prim.hlevel (
      codes,
      path_code (Prim.hlevel codes),
      cond_code (Prim.hlevel (codes, path_code (Prim.hlevel codes))),
    ) };

    ghost view = { λ s. kept_with s.store.db s.history s.blocks s.views };

    ghost invariant = { λ s. IsKept s.store.db s.history s.blocks s.views };
}

impl Db {
    /// The new database, without a history, blocks or views.
    pub fn new(alloc: Global) -> Result<Db, NoMemory>
        ensures state { IfOk result (λ db. db.state ≡ new_state) }
        ensures blocked { IfOk result (λ db. db.blocked ≡ false) }
        ensures fresh { IfOk result (λ db. db.fresh ≡ []) }
    {
        let store = Store::new(alloc);
        let views = Views::new(alloc);
        Ok(Db {
            store,
            history: None,
            blocks: None,
            views,
        })
    }

    /// The store that the database is kept in. Takes no memory.
    pub fn store(&self) -> &Store
        ensures { result.now.db ≡ self.now.state.db }
    {
        &self.store
    }

    /// The history, whose last moment is the present; None exactly where none is kept. Takes no
    /// memory.
    pub fn history(&self) -> Option<&History>
        ensures some { IfSome result (λ history.
            self.now.state.history ≡ Some (moments_of history.now)) }
        ensures last { IfSome result (λ history.
            last_moment history.now ≡ present self.now.state.db) }
        ensures none { IfNone result (self.now.state.history ≡ None) }
    {
        self.history.as_ref()
    }

    /// The blocks of the database; None exactly where none are kept. Takes no memory.
    pub fn blocks(&self) -> Option<&Blocks>
        ensures kept { is_some result ≡ self.now.blocked }
        ensures some { IfSome result (λ blocks. AreBlocksIn self.now.state.db blocks.now) }
    {
        self.blocks.as_ref()
    }

    /// The views. Those that are fresh have the rows of what their selects answer now. Takes no
    /// memory.
    pub fn views(&self) -> &Views
        ensures queries { queries_of result.now ≡ self.now.state.views }
        ensures fresh { fresh_of result.now ≡ self.now.fresh }
        ensures rows { AreFreshOver self.now.state.db result.now }
    {
        &self.views
    }

    /// The object's value; None exactly where the object isn't live. Takes no memory.
    pub fn value(&self, oid: Oid) -> Option<&Value>
        ensures found { IfSome result (λ value.
            Contains self.now.state.db.graph.objects (oid, value.now)) }
        ensures none { IfNone result (¬ IsLive self.now.state.db.graph.objects oid) }
        ensures only { (value : TheValue) → Contains self.now.state.db.graph.objects (oid, value)
            → option_copied result ≡ Some value }
    {
        self.store.graph().value_of(oid)
    }

    /// The object's value at a moment; None exactly where there is no such moment, or the object
    /// isn't live at it. Takes no memory.
    pub fn past_value(&self, moment: u32, oid: Oid) -> Option<&Value>
        ensures found { IfSome result (λ value.
            Contains (objects_at self.now.state.history moment) (oid, value.now)) }
        ensures none { IfNone result (¬ IsLive (objects_at self.now.state.history moment) oid) }
        ensures only { (value : TheValue)
            → Contains (objects_at self.now.state.history moment) (oid, value)
            → option_copied result ≡ Some value }
    {
        let history = self.history()?;
        if moment > history.last() {
            return None;
        }
        history.value_at(moment, oid)
    }

    /// The label's text; None exactly where the label has no text. Takes no memory.
    pub fn label(&self, label: Label) -> Option<&OemText>
        ensures { option_copied result ≡ slice_get self.now.state.db.labels label.0 }
    {
        self.store.labels().text(label)
    }

    /// Executes a statement. A refusal, and want of memory, leave the database, its history, its
    /// blocks and its views as they were. No step is counted for a statement that shows a plan,
    /// the guide, where a label path leads, what differs between two moments, or a view that is
    /// fresh, or that sets something, ends the history or takes a view away, for numbers out of
    /// range by which objects were to be generated, for a moment that isn't kept, for a dump that
    /// a history keeps out, and for a select for which no edge is read: where the guide tells all
    /// and no cell shows a word, or no value is found to begin with. Where blocks are kept none is
    /// counted for what they tell: their lines, and a select of at most one range, without a
    /// condition and words. For a load, a name that is taken away and generated objects no more is
    /// read than four times the work of their changes, and nothing where they are refused for any
    /// other cause than what the database or its history would hold.
    pub fn execute<L: Ledger>(
        &mut self,
        alloc: Global,
        statement: &Statement,
        steps: &mut Steps<L>,
    ) -> Result<Reply, NoMemory>
        requires { IsSound (statement_tree statement.now) }
        ensures ok { IfOk result (λ reply.
            Performs self.old.state (statement_tree statement.now) reply self.new.state) }
        ensures blocked { IfOk result (λ reply. self.new.blocked
            ≡ blocked_then self.old.blocked (statement_tree statement.now) reply) }
        ensures fresh { IfOk result (λ reply.
            KeepsFresh self.old (statement_tree statement.now) reply self.new) }
        ensures err { OnErr result (self.new ≡ self.old) }
        ensures uncounted { OnOk result (CountsNoStep self.old (statement_tree statement.now)
            → steps.new ≡ steps.old) }
        ensures unread { OnOk result (BlocksTellAll self.old (statement_tree statement.now)
            → steps.new ≡ steps.old) }
        ensures bounded { let tree = statement_tree statement.now in
            IfOk result (λ reply. ListsUnread tree
            → ReadsInState self.old.state tree reply steps.old steps.new) }
    {
        reply_of(self.perform(alloc, statement, steps))
    }

    // Executes a statement: on the database, its history, its blocks, or its views.
    fn perform<L: Ledger>(
        &mut self,
        alloc: Global,
        statement: &Statement,
        steps: &mut Steps<L>,
    ) -> Result<Reply, Stop>
        requires { IsSound (statement_tree statement.now) }
        ensures ok { IfOk result (λ reply.
            Performs self.old.state (statement_tree statement.now) reply self.new.state) }
        ensures fresh { IfOk result (λ reply.
            KeepsFresh self.old (statement_tree statement.now) reply self.new) }
        ensures refused { let cause = StateCause self.old.state (statement_tree statement.now) in
            IfErr result (λ stop. IsToldBy cause state_order (told stop)) }
        ensures blocked { IfOk result (λ reply. self.new.blocked
            ≡ blocked_then self.old.blocked (statement_tree statement.now) reply) }
        ensures same { OnErr result (self.new ≡ self.old) }
        ensures uncounted { OnReply result
            (CountsNoStep self.old (statement_tree statement.now) → steps.new ≡ steps.old) }
        ensures unread { OnReply result
            (BlocksTellAll self.old (statement_tree statement.now) → steps.new ≡ steps.old) }
        ensures bounded { let tree = statement_tree statement.now in
            IfOk result (λ reply. ListsUnread tree
            → ReadsInState self.old.state tree reply steps.old steps.new) }
        ensures stopped { let tree = statement_tree statement.now in
            IfErr result (λ stop. IfSome (told stop) (λ refusal. ListsUnread tree
            → ReadsInState self.old.state tree (Refused refusal) steps.old steps.new)) }
    {
        match statement {
            Statement::History(on) => self.keep(alloc, *on, steps),
            Statement::At(moment, query) => self.select_at(alloc, *moment, query, steps),
            Statement::ChangesList(first, last) => self.changes(alloc, *first, *last),
            Statement::Blocks => self.show_blocks(alloc, steps),
            Statement::BlocksSelect(query) => self.select_blocks(alloc, query, steps),
            Statement::Watch { name, select } => self.watch(alloc, name, select, steps),
            Statement::Unwatch(name) => self.unwatch(name),
            Statement::Show(name) => self.show(alloc, name, steps),
            other => self.proceed(alloc, other, steps),
        }
    }

    // Executes a statement on the database; its history, blocks and views go on.
    fn proceed<L: Ledger>(
        &mut self,
        alloc: Global,
        statement: &Statement,
        steps: &mut Steps<L>,
    ) -> Result<Reply, Stop>
        requires sound { IsSound (statement_tree statement.now) }
        requires plain { ¬ IsOfSession (statement_tree statement.now) }
        requires unblocked { ¬ IsOfBlocks (statement_tree statement.now) }
        ensures ok { IfOk result (λ reply.
            Performs self.old.state (statement_tree statement.now) reply self.new.state) }
        ensures fresh { IfOk result (λ reply.
            KeepsFresh self.old (statement_tree statement.now) reply self.new) }
        ensures refused { let cause = StateCause self.old.state (statement_tree statement.now) in
            IfErr result (λ stop. IsToldBy cause state_order (told stop)) }
        ensures blocked { IfOk result (λ reply. self.new.blocked
            ≡ blocked_then self.old.blocked (statement_tree statement.now) reply) }
        ensures same { OnErr result (self.new ≡ self.old) }
        ensures uncounted { OnReply result
            (CountsNoStep self.old (statement_tree statement.now) → steps.new ≡ steps.old) }
        ensures unread { OnReply result
            (BlocksTellAll self.old (statement_tree statement.now) → steps.new ≡ steps.old) }
        ensures bounded { let tree = statement_tree statement.now in
            IfOk result (λ reply. ListsUnread tree
            → ReadsInState self.old.state tree reply steps.old steps.new) }
        ensures stopped { let tree = statement_tree statement.now in
            IfErr result (λ stop. IfSome (told stop) (λ refusal. ListsUnread tree
            → ReadsInState self.old.state tree (Refused refusal) steps.old steps.new)) }
    {
        if is_changing(statement) {
            self.change(alloc, statement, steps)
        } else {
            self.execute_still(alloc, statement, steps)
        }
    }
}

#[cfg(test)]
mod tests;
