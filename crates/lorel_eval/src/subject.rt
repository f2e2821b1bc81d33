ghost use Rattle.std.specs.Prelude.{◌≡◌, IfOk};
ghost use Rattle.lore_base.specs.TargetSets.{ListsInOrder};
ghost use Rattle.lorel_eval.specs.inside.FoundObjects.{oids_of};
ghost use Rattle.lorel_eval.specs.inside.Ready.{ready_path};
ghost use Rattle.lorel_eval.specs.inside.Subjects.{start_of, ReachedIn};

use crate::found::Found;
use crate::ready_conds::ReadyPath;
use crate::ready_routes::Kept;
use crate::slots::in_slot;
use index_traits::{Adjacent, Row, ValueOf};
use lore_base::{NoMemory, Oid, Steps};
use lorel_bound::BoundStart;
use std::alloc::Global;
use std::cell::Cell;
use std::marker::Model;
use std::sync::ledger::Ledger;

// What a condition is tested on: a row's slots, and the database that their objects stand in.
#[derive(Drop)]
pub(crate) struct Subject<'a, A: Adjacent, G: ValueOf> {
    pub(crate) graph: &'a A,
    pub(crate) values: &'a G,
    pub(crate) row: &'a Row,
    // The lists of the walk before.
    pub(crate) kept: &'a Cell<Kept>,
}

impl<'a, A: Adjacent, G: ValueOf> Model for Subject<'a, A, G> {
    ghost use Rattle.lorel_eval.specs.inside.Subjects.{SlotsOver};

    ghost Value = { SlotsOver };

    ghost view = { λ subject. record {
      edges = A.edges subject.graph.now;
      objects = G.objects subject.values.now;
      slots = subject.row.now;
    } };
}

impl<'a, A: Adjacent, G: ValueOf> Subject<'a, A, G> {
    // The object of a start, where the quantifiers around it have these objects; None where there are
    // not so many slots or quantifiers.
    fn start_of(&self, objects: &[Oid], start: BoundStart) -> Option<Oid>
        ensures { result ≡ start_of self.now.slots objects.now start }
    {
        match start {
            BoundStart::Named(oid) => Some(oid),
            BoundStart::Slot(slot) => in_slot(self.row, slot),
            BoundStart::Quantified(depth) => objects.get(depth as usize).copied(),
        }
    }

    // The objects that the path reaches, ascending, each once.
    pub(crate) fn reached<L: Ledger>(
        &self,
        alloc: Global,
        objects: &[Oid],
        path: &ReadyPath,
        steps: &mut Steps<L>,
    ) -> Result<Found, NoMemory>
        ensures { IfOk result (λ found. ListsInOrder
            (ReachedIn self.now objects.now (ready_path path.now)) (oids_of found)) }
    {
        let Some(start) = self.start_of(objects, path.start) else {
            return Ok(Found::none(alloc));
        };
        path.route.reach(alloc, self.graph, start, self.kept, steps)
    }
}
