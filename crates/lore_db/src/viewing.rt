ghost use Rattle.std.specs.Prelude.{◌≡◌, ◌≤◌, ◌↔◌, None, length, Contains, IsTrue, IfOk, IfErr, OnErr};
ghost use Rattle.lore_base.specs.Verdicts.{IsToldBy};
ghost use Rattle.lorel_trees.specs.Trees.{select_tree, watch as watching, unwatch as unwatching};
ghost use Rattle.lorel_trees.specs.Trees.{show as showing};
ghost use Rattle.lorel_trees.specs.Sound.{IsSound};
ghost use Rattle.live_views.specs.Views.{view_of};
ghost use Rattle.statements.specs.Types.{VIEWS as THE_VIEWS};
ghost use Rattle.statements.specs.Stops.{told, OnReply};
ghost use Rattle.lore_db.specs.Types.{Rows};
ghost use Rattle.lore_db.specs.States.{Performs, StateCause, state_order, CountsNoStep};
ghost use Rattle.lore_db.specs.Freshness.{KeepsFresh};

use crate::db::Db;
use live_views::Views;
use lore_base::limits::VIEWS;
use lore_base::{OemText, Refusal, Steps, TryCopy};
use lorel_trees::Select;
use statements::{Answer, Reply, Stop, counts, selected};
use std::alloc::Global;
use std::sync::ledger::Ledger;

impl Db {
    /// Keeps a select with its rows, in place of an older one of this name. Refused is what a
    /// select is refused for, and a new name where as many views are kept as may be
    /// (`TooManyViews`).
    pub(crate) fn watch<L: Ledger>(
        &mut self,
        alloc: Global,
        name: &OemText,
        query: &Select,
        steps: &mut Steps<L>,
    ) -> Result<Reply, Stop>
        requires { IsSound (watching name.now (select_tree query.now)) }
        ensures ok { let asked = watching name.now (select_tree query.now) in
            IfOk result (λ reply. Performs self.old.state asked reply self.new.state) }
        ensures fresh { let asked = watching name.now (select_tree query.now) in
            IfOk result (λ reply. KeepsFresh self.old asked reply self.new) }
        ensures refused { let asked = watching name.now (select_tree query.now) in
            IfErr result (λ stop. IsToldBy (StateCause self.old.state asked) state_order (told stop)) }
        ensures blocked { self.new.blocked ≡ self.old.blocked }
        ensures same { OnErr result (self.new ≡ self.old) }
        ensures uncounted { let asked = watching name.now (select_tree query.now) in
            OnReply result (CountsNoStep self.old asked → steps.new ≡ steps.old) }
    {
        let answer = selected(alloc, &self.store, query, steps)?;
        if is_one_too_many(&self.views, name) {
            return Err(Stop::Refused(Refusal::TooManyViews));
        }
        let own_name = name.try_copy(alloc)?;
        let own_query = query.try_copy(alloc)?;
        self.views.put(own_name, own_query, answer)?;
        Ok(counts(&self.store))
    }

    /// Keeps the view no longer. Refused is a name that no view has (`UnknownView`).
    pub(crate) fn unwatch(&mut self, name: &OemText) -> Result<Reply, Stop>
        ensures ok { IfOk result (λ reply.
            Performs self.old.state (unwatching name.now) reply self.new.state) }
        ensures fresh { IfOk result (λ reply.
            KeepsFresh self.old (unwatching name.now) reply self.new) }
        ensures refused { let cause = StateCause self.old.state (unwatching name.now) in
            IfErr result (λ stop. IsToldBy cause state_order (told stop)) }
        ensures blocked { self.new.blocked ≡ self.old.blocked }
        ensures same { OnErr result (self.new ≡ self.old) }
    {
        if !self.views.take(name) {
            return Err(Stop::Refused(Refusal::UnknownView));
        }
        Ok(counts(&self.store))
    }

    /// The rows of a view: those that are kept, where it is fresh; else they are found, and kept
    /// from then on. Refused are a name that no view has (`UnknownView`), and what a select is
    /// refused for. No step is counted for a fresh view.
    pub(crate) fn show<L: Ledger>(
        &mut self,
        alloc: Global,
        name: &OemText,
        steps: &mut Steps<L>,
    ) -> Result<Reply, Stop>
        ensures ok { IfOk result (λ reply.
            Performs self.old.state (showing name.now) reply self.new.state) }
        ensures fresh { IfOk result (λ reply.
            KeepsFresh self.old (showing name.now) reply self.new) }
        ensures refused { let cause = StateCause self.old.state (showing name.now) in
            IfErr result (λ stop. IsToldBy cause state_order (told stop)) }
        ensures blocked { self.new.blocked ≡ self.old.blocked }
        ensures same { OnErr result (self.new ≡ self.old) }
        ensures uncounted { OnReply result
            (CountsNoStep self.old (showing name.now) → steps.new ≡ steps.old) }
    {
        match self.views.rows(name) {
            Some(rows) => copied(alloc, rows),
            None => self.show_anew(alloc, name, steps),
        }
    }

    // The rows of a view that isn't fresh: they are found, and kept from then on.
    fn show_anew<L: Ledger>(
        &mut self,
        alloc: Global,
        name: &OemText,
        steps: &mut Steps<L>,
    ) -> Result<Reply, Stop>
        requires { ¬ Contains self.old.fresh name.now }
        ensures ok { IfOk result (λ reply.
            Performs self.old.state (showing name.now) reply self.new.state) }
        ensures fresh { IfOk result (λ reply.
            KeepsFresh self.old (showing name.now) reply self.new) }
        ensures refused { let cause = StateCause self.old.state (showing name.now) in
            IfErr result (λ stop. IsToldBy cause state_order (told stop)) }
        ensures blocked { self.new.blocked ≡ self.old.blocked }
        ensures same { OnErr result (self.new ≡ self.old) }
        ensures uncounted { OnReply result
            (CountsNoStep self.old (showing name.now) → steps.new ≡ steps.old) }
    {
        let Some(query) = self.views.find(name) else {
            return Err(Stop::Refused(Refusal::UnknownView));
        };
        let answer = selected(alloc, &self.store, query, steps)?;
        let copy = answer.try_copy(alloc)?;
        self.views.refresh(name, copy);
        Ok(Reply::Rows(answer))
    }
}

// The reply of rows that are kept.
fn copied(alloc: Global, rows: &Answer) -> Result<Reply, Stop>
    ensures ok { IfOk result (λ reply. reply ≡ Rows rows.now) }
    ensures refused { IfErr result (λ stop. told stop ≡ None) }
{
    Ok(Reply::Rows(rows.try_copy(alloc)?))
}

// Whether the name is new, and as many views are kept as may be.
fn is_one_too_many(views: &Views, name: &OemText) -> bool
    ensures { IsTrue result
        ↔ ((view_of views.now name.now ≡ None) × (THE_VIEWS ≤ length views.now)) }
{
    match views.find(name) {
        Some(_) => false,
        None => are_most(views),
    }
}

// Whether as many views are kept as may be.
fn are_most(views: &Views) -> bool
    ensures { IsTrue result ↔ (THE_VIEWS ≤ length views.now) }
{
    views.len() >= VIEWS
}
