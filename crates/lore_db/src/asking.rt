ghost use Rattle.std.specs.Prelude.{◌≡◌, ◌<◌, ◌≤◌, ℕ, pos, Some, None, IfOk, IfErr, IfSome, IfNone};
ghost use Rattle.lore_base.specs.Verdicts.{IsToldBy};
ghost use Rattle.lorel_trees.specs.Trees.{select_tree, select_at, changes as differing};
ghost use Rattle.lorel_ranges.specs.Texts.{IsShallow};
ghost use Rattle.doem_history.specs.Histories.{moments_of};
ghost use Rattle.statements.specs.Types.refusals;
ghost use Rattle.statements.specs.Stops.{told, OnReply};
ghost use Rattle.lore_db.specs.States.{Performs, StateCause, state_order, CountsNoStep};

use crate::db::Db;
use change_lines::change_lines;
use doem_history::History;
use lore_base::{Refusal, Steps};
use lorel_trees::Select;
use statements::{Reply, Stop, select_over};
use std::alloc::Global;
use std::sync::ledger::Ledger;

impl Db {
    /// Selects rows over the database as it was at a moment. Refused are a history that isn't kept
    /// (`NoHistory`), a number of no moment (`MomentRange`), and what a select is refused for. No
    /// step is counted where there is no such moment.
    pub(crate) fn select_at<L: Ledger>(
        &self,
        alloc: Global,
        moment: i64,
        query: &Select,
        steps: &mut Steps<L>,
    ) -> Result<Reply, Stop>
        requires { IsShallow (select_tree query.now) }
        ensures ok { let asked = select_at moment (select_tree query.now) in
            IfOk result (λ reply. Performs self.now.state asked reply self.now.state) }
        ensures refused { let asked = select_at moment (select_tree query.now) in
            let cause = StateCause self.now.state asked in
            IfErr result (λ stop. IsToldBy cause state_order (told stop)) }
        ensures uncounted { let asked = select_at moment (select_tree query.now) in
            OnReply result (CountsNoStep self.now asked → steps.new ≡ steps.old) }
    {
        let history = self.kept()?;
        let Some(moment) = number_of(history, moment) else {
            return Err(Stop::Refused(Refusal::MomentRange));
        };
        let names = history.names_at(moment)?;
        let view = history.view(moment);
        let answer = select_over(alloc, &self.store, &names, &view, query, steps)?;
        Ok(Reply::Past { moment, answer })
    }

    /// The lines of what differs between two moments. Refused are a history that isn't kept
    /// (`NoHistory`), and numbers of no two moments, the first not behind the last
    /// (`MomentRange`).
    pub(crate) fn changes(&self, alloc: Global, first: i64, last: i64) -> Result<Reply, Stop>
        ensures ok { IfOk result (λ reply.
            Performs self.now.state (differing first last) reply self.now.state) }
        ensures refused { let cause = StateCause self.now.state (differing first last) in
            IfErr result (λ stop. IsToldBy cause state_order (told stop)) }
    {
        let history = self.kept()?;
        let Some((first, last)) = numbers_of(history, first, last) else {
            return Err(Stop::Refused(Refusal::MomentRange));
        };
        let delta = history.between(first, last)?;
        Ok(Reply::Lines(change_lines(alloc, &delta, self.store.labels())?))
    }

    // The history. Refused is one that isn't kept.
    fn kept(&self) -> Result<&History, Stop>
        ensures ok { IfOk result (λ history.
            self.now.state.history ≡ Some (moments_of history.now)) }
        ensures refused { IfErr result (λ stop.
            (told stop ≡ Some refusals.NoHistory) × (self.now.state.history ≡ None)) }
    {
        match &self.history {
            Some(history) => Ok(history),
            None => Err(Stop::Refused(Refusal::NoHistory)),
        }
    }
}

// The number of a moment; None exactly where there is none of this number.
fn number_of(history: &History, given: i64) -> Option<u32>
    ensures some { IfSome result (λ number. (given ≡ pos number) × (number ≤ history.now.last)) }
    ensures none { IfNone result ((number : ℕ) → given ≡ pos number → history.now.last < number) }
{
    let last = history.last();
    let number = u32::try_from(given).ok()?;
    if number > last {
        return None;
    }
    Some(number)
}

// The numbers of two moments; None exactly where there are none such, the first not behind the
// last.
fn numbers_of(history: &History, first: i64, last: i64) -> Option<(u32, u32)>
    ensures some { IfSome result (λ two. (first ≡ pos two.0) × (last ≡ pos two.1)
        × (two.0 ≤ two.1) × (two.1 ≤ history.now.last)) }
    ensures none { IfNone result ((from to : ℕ) → first ≡ pos from → last ≡ pos to → from ≤ to
        → history.now.last < to) }
{
    let first = number_of(history, first)?;
    let last = number_of(history, last)?;
    if first > last {
        return None;
    }
    Some((first, last))
}
