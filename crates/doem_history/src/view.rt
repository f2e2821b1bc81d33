ghost use Rattle.std.specs.Prelude.{◌≡◌, ◌≤◌};
ghost use Rattle.doem_history.specs.Histories.{moment_at};

use crate::history::History;
use index_traits::{Adjacent, ValueOf};
use lore_base::{EdgeBuf, NoMemory, Oid, Steps, Value};
use std::marker::Model;
use std::sync::ledger::Ledger;

/// One moment of a history, read as a graph is. The edges of an object are read in time by all runs
/// of edges that ever left it, its value in time by the runs of its values. Contracts see the names,
/// objects and edges of the moment.
#[derive(Drop)]
pub struct HistoryView<'a> {
    history: &'a History,
    moment: u32,
}

impl<'a> Model for HistoryView<'a> {
    ghost use Rattle.std.specs.Prelude.{◌≤◌};
    ghost use Rattle.doem_history.specs.Moments.{Moment};
    ghost use Rattle.doem_history.specs.Histories.{moment_at};

    ghost Value = { Moment };

    ghost view = { λ v. moment_at v.history.now v.moment };

    ghost invariant = { λ v. v.moment ≤ v.history.now.last };
}

impl<'a> HistoryView<'a> {
    // The moment of the history.
    pub(crate) fn new(history: &'a History, moment: u32) -> HistoryView<'a>
        requires { moment ≤ history.now.last }
        ensures { result ≡ moment_at history.now moment }
    {
        HistoryView { history, moment }
    }
}

impl<'a> Adjacent for HistoryView<'a> {
    ghost edges = { λ v. v.edges };

    fn out_edges<L: Ledger>(
        &self,
        oid: Oid,
        buf: &mut EdgeBuf,
        steps: &mut Steps<L>,
    ) -> Result<(), NoMemory> {
        let found = self.history.edges_at(self.moment, oid)?;
        buf.append(found.as_slice())?;
        steps.tick(1 + found.len() as u64);
        Ok(())
    }
}

impl<'a> ValueOf for HistoryView<'a> {
    ghost objects = { λ v. v.objects };

    fn value_of(&self, oid: Oid) -> Option<&Value> {
        self.history.value_at(self.moment, oid)
    }
}
