ghost use Rattle.std.specs.Prelude.{◌≡◌, List, Some, IfOk, IfSome};
ghost use Rattle.index_traits.specs.PartRows.{AreAllThatFit};
ghost use Rattle.lorel_bound.specs.Bound.{bound_cond};
ghost use Rattle.lorel_bound.specs.SlotRows.{HoldsOver};
ghost use Rattle.index_eval.specs.Indexes.{AreIndexes};
ghost use Rattle.slot_joins.specs.Types.{Oid as TheOid};

use crate::indexed::Indexed;
use crate::joins::{Join, fitting_by};
use crate::members::{joins_of, no_joins};
use index_traits::{Adjacent, Links, Row, RowTest, ValueOf, Values};
use lore_base::limits::RANGES;
use lore_base::{NoMemory, OidBuf, Steps};
use lorel_bound::BoundCond;
use std::alloc::Global;
use std::marker::Model;
use std::sync::ledger::Ledger;

/// A test of rows over a graph, with the help of tables, which tell early which objects fit a
/// slot. Contracts see it as the test.
#[derive(Drop)]
pub struct JoinedTest<'a, T: RowTest, G: Adjacent + ValueOf> {
    test: T,
    graph: &'a G,
    joins: Vec<Join>,
}

impl<'a, T: RowTest, G: Adjacent + ValueOf> Model for JoinedTest<'a, T, G> {
    ghost use Rattle.std.specs.Prelude.{All};
    ghost use Rattle.slot_joins.specs.inside.Joins.{IsJoinFor};

    ghost Value = { T };

    ghost view = { λ j. j.test };

    ghost invariant = { λ j. All
        (IsJoinFor (G.edges j.graph.now) (G.objects j.graph.now) (T.passes j.test)) j.joins.items };
}

impl<'a, T: RowTest + Drop, G: Adjacent + ValueOf> JoinedTest<'a, T, G> {
    /// The test alone. Takes no memory.
    pub fn alone(alloc: Global, test: T, graph: &'a G) -> JoinedTest<'a, T, G>
        ensures { result ≡ test }
    {
        JoinedTest {
            test,
            graph,
            joins: no_joins(alloc),
        }
    }

    /// The test with tables for what its condition compares of slots, from one of these to a later
    /// one. They are made here, where they pay for so many rows.
    pub fn joined<K: Links, V: Values, L: Ledger>(
        alloc: Global,
        test: T,
        indexed: &Indexed<'a, G, K, V>,
        cond: &BoundCond,
        slots: &[u32],
        count: u32,
        steps: &mut Steps<L>,
    ) -> Result<JoinedTest<'a, T, G>, NoMemory>
        requires indexes { AreIndexes (G.objects indexed.now.graph.now)
            (G.edges indexed.now.graph.now) (K.edges indexed.now.links.now)
            (V.entries indexed.now.values.now) }
        requires passes { (row : List TheOid) → T.passes test row
            → HoldsOver indexed.now.labels.now (G.edges indexed.now.graph.now)
            (G.objects indexed.now.graph.now) row (Some (bound_cond cond.now)) }
        ensures { IfOk result (λ joined. joined ≡ test) }
    {
        let joins = joins_of(alloc, indexed, cond, slots, count, steps)?;
        Ok(JoinedTest {
            test,
            graph: indexed.graph,
            joins,
        })
    }
}

impl<'a, T: RowTest, G: Adjacent + ValueOf> JoinedTest<'a, T, G> {
    // The objects that fit the slot by a table; None where none tells.
    fn fitting_by_tables<L: Ledger>(
        &self,
        alloc: Global,
        known: &[bool; RANGES],
        slot: u32,
        row: &Row,
        steps: &mut Steps<L>,
    ) -> Result<Option<OidBuf>, NoMemory>
        ensures { IfOk result (λ found. IfSome found (λ oids.
            AreAllThatFit (T.passes self.now) known.now slot row.now oids)) }
    {
        fitting_by(
            alloc,
            self.graph,
            self.joins.as_slice(),
            known,
            slot,
            row,
            steps,
        )
    }
}

impl<'a, T: RowTest, G: Adjacent + ValueOf> RowTest for JoinedTest<'a, T, G> {
    ghost passes = { λ test row. T.passes test row };

    fn holds<L: Ledger>(
        &self,
        alloc: Global,
        row: &Row,
        steps: &mut Steps<L>,
    ) -> Result<bool, NoMemory> {
        self.test.holds(alloc, row, steps)
    }

    fn rules_out<L: Ledger>(
        &self,
        alloc: Global,
        known: &[bool; RANGES],
        row: &Row,
        steps: &mut Steps<L>,
    ) -> Result<bool, NoMemory> {
        self.test.rules_out(alloc, known, row, steps)
    }

    fn fitting<L: Ledger>(
        &self,
        alloc: Global,
        known: &[bool; RANGES],
        slot: u32,
        row: &Row,
        steps: &mut Steps<L>,
    ) -> Result<Option<OidBuf>, NoMemory> {
        let found = self.fitting_by_tables(alloc, known, slot, row, steps)?;
        if found.is_some() {
            return Ok(found);
        }
        self.test.fitting(alloc, known, slot, row, steps)
    }
}
