ghost use Rattle.std.specs.Prelude.{◌≡◌, ◌≤◌, option_map, IfOk};
ghost use Rattle.std.specs.Option.{option_copied};
ghost use Rattle.lorel_bound.specs.Bound.{bound_cond};
ghost use Rattle.lorel_bound.specs.Conditions.{paths_in};
ghost use Rattle.lorel_bound.specs.SlotRows.{HoldsOver};
ghost use Rattle.lorel_eval.specs.Types.{LEAVES};
ghost use Rattle.lorel_eval.specs.Tests.{rest_leaves};

use crate::conditions::cond_holds;
use crate::early::fails_early;
use crate::making_ready::ready_cond;
use crate::ready_conds::ReadyCond;
use crate::ready_routes::Kept;
use crate::subject::Subject;
use index_traits::{Adjacent, Row, RowTest, ValueOf};
use lore_base::limits::RANGES;
use lore_base::{NoMemory, Oid, Steps};
use lorel_bound::BoundCond;
use oem_labels::LabelTable;
use std::alloc::Global;
use std::cell::Cell;
use std::marker::Model;
use std::sync::ledger::Ledger;

/// A bound condition over a database, or no condition, which holds of every row. Contracts see the
/// label texts, the edges, the objects with their values, and the condition.
///
/// Where its paths aren't made ready, each row that is tested has them made ready anew.
#[derive(Drop)]
pub struct Test<'a, A: Adjacent, G: ValueOf> {
    cond: Option<&'a BoundCond>,
    ready: Option<ReadyCond<'a>>,
    graph: &'a A,
    values: &'a G,
    labels: &'a LabelTable,
    // The lists of the walk before.
    kept: Cell<Kept>,
    // Members that compare what two paths reach tell nothing early.
    by_values: bool,
}

impl<'a, A: Adjacent, G: ValueOf> Model for Test<'a, A, G> {
    ghost use Rattle.std.specs.Prelude.{◌≡◌, ◌≤◌, Some, option_map, IfSome};
    ghost use Rattle.std.specs.Option.{option_copied};
    ghost use Rattle.std.specs.Coded.{codes};
    ghost use Rattle.lorel_bound.specs.contracts.conditions.BoundCond as bound_cond_contract;
    ghost use Rattle.lorel_bound.specs.Bound.{bound_cond};
    ghost use Rattle.lorel_bound.specs.Conditions.{paths_in};
    ghost use Rattle.lorel_eval.specs.Types.{LEAVES};
    ghost use Rattle.lorel_eval.specs.Tests.{CondOver, rest_leaves};
    ghost use Rattle.lorel_eval.specs.inside.Labelled.{labelled};
    ghost use Rattle.lorel_eval.specs.inside.Ready.{ready_tree};

    ghost Value = { CondOver };

    ghost coded = { Prim.hlevel (codes, bound_cond_contract.the_row.coded) };

    ghost view = { λ test. record {
      labels = test.labels.now;
      edges = A.edges test.graph.now;
      objects = G.objects test.values.now;
      cond = option_copied test.cond;
    } };

    ghost invariant = { λ test.
        let cond = option_map bound_cond (option_copied test.cond) in
        (rest_leaves (paths_in cond) ≤ LEAVES)
        × IfSome test.ready (λ ready.
        Some (ready_tree ready) ≡ option_map (labelled test.labels.now) cond) };
}

impl<'a, A: Adjacent, G: ValueOf> Test<'a, A, G> {
    /// The test of this condition over a graph, the values of its objects and its table of labels. The
    /// rests of the condition's paths have at most 64 leaves together. Takes no memory.
    pub fn new(
        cond: Option<&'a BoundCond>,
        graph: &'a A,
        values: &'a G,
        labels: &'a LabelTable,
    ) -> Test<'a, A, G>
        requires { rest_leaves (paths_in (option_map bound_cond (option_copied cond))) ≤ LEAVES }
        ensures labels { result.labels ≡ labels.now }
        ensures edges { result.edges ≡ A.edges graph.now }
        ensures objects { result.objects ≡ G.objects values.now }
        ensures cond { result.cond ≡ option_copied cond.entry }
    {
        Test {
            cond,
            ready: None,
            graph,
            values,
            labels,
            kept: Cell::new(Kept::Nothing),
            by_values: false,
        }
    }

    /// The test with the paths of its condition made ready once, for many rows. Their rests have at
    /// most 64 leaves together.
    pub fn ready(
        alloc: Global,
        cond: Option<&'a BoundCond>,
        graph: &'a A,
        values: &'a G,
        labels: &'a LabelTable,
    ) -> Result<Test<'a, A, G>, NoMemory>
        requires { rest_leaves (paths_in (option_map bound_cond (option_copied cond))) ≤ LEAVES }
        ensures labels { IfOk result (λ test. test.labels ≡ labels.now) }
        ensures edges { IfOk result (λ test. test.edges ≡ A.edges graph.now) }
        ensures objects { IfOk result (λ test. test.objects ≡ G.objects values.now) }
        ensures cond { IfOk result (λ test. test.cond ≡ option_copied cond.entry) }
    {
        Test::made(alloc, cond, graph, values, labels, false)
    }

    /// The same, where no row is ruled out by a member that compares what two paths reach.
    pub fn by_values(
        alloc: Global,
        cond: Option<&'a BoundCond>,
        graph: &'a A,
        values: &'a G,
        labels: &'a LabelTable,
    ) -> Result<Test<'a, A, G>, NoMemory>
        requires { rest_leaves (paths_in (option_map bound_cond (option_copied cond))) ≤ LEAVES }
        ensures labels { IfOk result (λ test. test.labels ≡ labels.now) }
        ensures edges { IfOk result (λ test. test.edges ≡ A.edges graph.now) }
        ensures objects { IfOk result (λ test. test.objects ≡ G.objects values.now) }
        ensures cond { IfOk result (λ test. test.cond ≡ option_copied cond.entry) }
    {
        Test::made(alloc, cond, graph, values, labels, true)
    }

    fn made(
        alloc: Global,
        cond: Option<&'a BoundCond>,
        graph: &'a A,
        values: &'a G,
        labels: &'a LabelTable,
        by_values: bool,
    ) -> Result<Test<'a, A, G>, NoMemory>
        requires { rest_leaves (paths_in (option_map bound_cond (option_copied cond))) ≤ LEAVES }
        ensures labels { IfOk result (λ test. test.labels ≡ labels.now) }
        ensures edges { IfOk result (λ test. test.edges ≡ A.edges graph.now) }
        ensures objects { IfOk result (λ test. test.objects ≡ G.objects values.now) }
        ensures cond { IfOk result (λ test. test.cond ≡ option_copied cond.entry) }
    {
        let ready = match cond {
            Some(cond) => Some(ready_cond(alloc, labels, cond)?),
            None => None,
        };
        Ok(Test {
            cond,
            ready,
            graph,
            values,
            labels,
            kept: Cell::new(Kept::Nothing),
            by_values,
        })
    }
}

impl<'a, A: Adjacent, G: ValueOf> RowTest for Test<'a, A, G> {
    ghost passes = { λ test row.
        HoldsOver test.labels test.edges test.objects row (option_map bound_cond test.cond) };

    fn holds<L: Ledger>(
        &self,
        alloc: Global,
        row: &Row,
        steps: &mut Steps<L>,
    ) -> Result<bool, NoMemory> {
        let Some(cond) = self.cond else {
            return Ok(true);
        };
        let subject = Subject {
            graph: self.graph,
            values: self.values,
            row,
            kept: &self.kept,
        };
        let around: [Oid; 0] = [];
        match &self.ready {
            Some(ready) => cond_holds(alloc, &subject, &around, ready, steps),
            None => {
                let ready = ready_cond(alloc, self.labels, cond)?;
                cond_holds(alloc, &subject, &around, &ready, steps)
            }
        }
    }

    // A test whose paths aren't made ready tells nothing early.
    fn rules_out<L: Ledger>(
        &self,
        alloc: Global,
        known: &[bool; RANGES],
        row: &Row,
        steps: &mut Steps<L>,
    ) -> Result<bool, NoMemory> {
        let Some(ready) = &self.ready else {
            return Ok(false);
        };
        let subject = Subject {
            graph: self.graph,
            values: self.values,
            row,
            kept: &self.kept,
        };
        fails_early(alloc, &subject, ready, known, self.by_values, steps)
    }
}
