ghost use Rattle.std.specs.Prelude.{◌≡◌, ◌≢◌, ◌↔◌, ◌<◌, ◌≤◌, ◌⊎◌, List, [], length, All};
ghost use Rattle.std.specs.Prelude.{AllPairs};
ghost use Rattle.std.specs.Prelude.{IfOk, IfSome, OnOk, OnErr};
ghost use Rattle.lorel_bound.specs.Bound.{bound_tree};
ghost use Rattle.lorel_bound.specs.Runnable.{IsRunnable};
ghost use Rattle.lorel_bound.specs.Plans.{IsPlanOf, steps_of};
ghost use Rattle.plan_ops.specs.Types.{Oid as TheOid, Value as TheValue};
ghost use Rattle.plan_laws.specs.Steps.{steps_over, Agrees, Finishes, IsSought, in_eight};
ghost use Rattle.plan_ops.specs.Rows.{IsToCome, AreSame, AnswersNext, AreQuiet, ReadNothing};
ghost use Rattle.plan_ops.specs.Rows.{WalksOrTests};
ghost use Rattle.plan_ops.specs.Rows.{HasTheSamePlan, work_left};

use crate::kept::{Kept, none_kept};
use crate::machine::next_row;
use crate::partial_rows::PartialRow;
use crate::ready_steps::{ReadyStep, ready_steps};
use crate::sources::Sources;
use index_traits::{Adjacent, Links, Paths, Row, RowTest, Values};
use lore_base::{NoMemory, Steps};
use lorel_bound::{Bound, Plan};
use oem_labels::LabelTable;
use row_hints::Learned;
use std::alloc::Global;
use std::marker::Model;
use std::sync::ledger::Ledger;

/// The rows of a bound select that are still to come, by a plan. Contracts see what the plan's steps
/// are taken over, the plan, and the partial rows of which rows are to come.
#[derive(Drop)]
pub struct Rows<'a, A: Adjacent, K: Links, V: Values, P: Paths, T: RowTest> {
    sources: Sources<'a, A, K, V, P, T>,
    plan: &'a Plan,
    ready: Vec<ReadyStep<'a>>,
    // What each step reached the last time that it was taken.
    kept: Vec<Kept>,
    learned: Learned,
    partials: Vec<PartialRow>,
}

impl<'a, A: Adjacent, K: Links, V: Values, P: Paths, T: RowTest> Model for Rows<'a, A, K, V, P, T> {
    ghost use Rattle.std.specs.Coded.{codes};
    ghost use Rattle.lore_base.specs.contracts.paths.Path as path_contract;
    ghost use Rattle.lorel_bound.specs.Plans.{steps_of};
    ghost use Rattle.plan_laws.specs.Steps.{steps_over};
    ghost use Rattle.plan_ops.specs.Rows.{RowsLeft};
    ghost use Rattle.plan_ops.specs.inside.Machines.{IsReadyMachine};

    ghost Value = { RowsLeft A K V P T };

    ghost coded = { Prim.hlevel (codes, path_contract.the_row.coded) };

    ghost view = { λ rows. record {
      graph = rows.sources.graph.now;
      links = rows.sources.links.now;
      values = rows.sources.values.now;
      paths = rows.sources.paths.now;
      test = rows.sources.test.now;
      labels = rows.sources.labels.now;
      plan = rows.plan.now;
      partials = rows.partials.items;
    } };

    ghost invariant = { λ rows. IsReadyMachine
        (steps_over rows.sources.labels.now (A.edges rows.sources.graph.now)
        (K.edges rows.sources.links.now) (V.entries rows.sources.values.now)
        (P.reaches rows.sources.paths.now) (T.passes rows.sources.test.now))
        (λ row. T.passes rows.sources.test.now row × T.passes rows.sources.hints.now row)
        (steps_of rows.plan.now) rows.ready.items rows.kept.items rows.learned.told.items
        rows.partials.items };
}

impl<'a, A: Adjacent, K: Links, V: Values, P: Paths, T: RowTest> Rows<'a, A, K, V, P, T> {
    /// The rows of a bound select by a plan that belongs to it: each row of slots that its ranges fill
    /// and that passes the test, once, in an order that is left open. The paths are made ready here,
    /// once, and the guide is asked.
    ///
    /// Where all the traits stand for one database, and the test for the condition of the select, this
    /// holds of every plan; of one that walks forward alone it holds whatever links, values and paths
    /// are.
    pub fn new(
        alloc: Global,
        graph: &'a A,
        links: &'a K,
        values: &'a V,
        paths: &'a P,
        test: &'a T,
        bound: &'a Bound,
        plan: &'a Plan,
        labels: &'a LabelTable,
    ) -> Result<Rows<'a, A, K, V, P, T>, NoMemory>
        requires runnable { IsRunnable (bound_tree bound.now) }
        requires plan { IsPlanOf labels.now (bound_tree bound.now) plan.now }
        ensures over { IfOk result (λ rows. (rows.graph ≡ graph.now) × (rows.links ≡ links.now)
            × (rows.values ≡ values.now) × (rows.paths ≡ paths.now) × (rows.test ≡ test.now)
            × (rows.labels ≡ labels.now) × (rows.plan ≡ plan.now)) }
        ensures rows { let over = steps_over labels.now (A.edges graph.now) (K.edges links.now)
            (V.entries values.now) (P.reaches paths.now) (T.passes test.now) in
            let sought = IsSought labels.now (A.edges graph.now) (T.passes test.now)
            (bound_tree bound.now) in
            IfOk result (λ rows. (objects : List (TheOid × TheValue))
            → Agrees over objects (bound_tree bound.now)
            → AreSame sought (IsToCome over (steps_of rows.plan) rows.partials)) }
        ensures top { let over = steps_over labels.now (A.edges graph.now) (K.edges links.now)
            (V.entries values.now) (P.reaches paths.now) (T.passes test.now) in
            let sought = IsSought labels.now (A.edges graph.now) (T.passes test.now)
            (bound_tree bound.now) in
            IfOk result (λ rows. All WalksOrTests (steps_of plan.now)
            → AreSame sought (IsToCome over (steps_of rows.plan) rows.partials)) }
        ensures quiet { let over = steps_over labels.now (A.edges graph.now) (K.edges links.now)
            (V.entries values.now) (P.reaches paths.now) (T.passes test.now) in
            IfOk result (λ rows. AreQuiet over (steps_of rows.plan)
            → ReadNothing over (steps_of rows.plan) rows.partials) }
    {
        Rows::with_hints(
            alloc, graph, links, values, paths, test, test, None, bound, plan, labels,
        )
    }

    /// The same with hints: another test, which each row that comes of the plan passes where it
    /// passes the test. It is asked which objects fit a slot where the test tells none; and, as long
    /// as no slot from `late` on is filled, whether a row is ruled out. From then on the test is asked
    /// that, and of a whole row the test alone. Without `late` the hints are never asked. Both decide
    /// what is left out early, and not which rows come.
    pub fn with_hints(
        alloc: Global,
        graph: &'a A,
        links: &'a K,
        values: &'a V,
        paths: &'a P,
        test: &'a T,
        hints: &'a T,
        late: Option<u32>,
        bound: &'a Bound,
        plan: &'a Plan,
        labels: &'a LabelTable,
    ) -> Result<Rows<'a, A, K, V, P, T>, NoMemory>
        requires runnable { IsRunnable (bound_tree bound.now) }
        requires plan { IsPlanOf labels.now (bound_tree bound.now) plan.now }
        requires hints { let over = steps_over labels.now (A.edges graph.now) (K.edges links.now)
            (V.entries values.now) (P.reaches paths.now) (T.passes test.now) in
            (row : List TheOid) → Finishes over (steps_of plan.now) (in_eight []) row
            → T.passes test.now row → T.passes hints.now row }
        ensures over { IfOk result (λ rows. (rows.graph ≡ graph.now) × (rows.links ≡ links.now)
            × (rows.values ≡ values.now) × (rows.paths ≡ paths.now) × (rows.test ≡ test.now)
            × (rows.labels ≡ labels.now) × (rows.plan ≡ plan.now)) }
        ensures rows { let over = steps_over labels.now (A.edges graph.now) (K.edges links.now)
            (V.entries values.now) (P.reaches paths.now) (T.passes test.now) in
            let sought = IsSought labels.now (A.edges graph.now) (T.passes test.now)
            (bound_tree bound.now) in
            IfOk result (λ rows. (objects : List (TheOid × TheValue))
            → Agrees over objects (bound_tree bound.now)
            → AreSame sought (IsToCome over (steps_of rows.plan) rows.partials)) }
        ensures top { let over = steps_over labels.now (A.edges graph.now) (K.edges links.now)
            (V.entries values.now) (P.reaches paths.now) (T.passes test.now) in
            let sought = IsSought labels.now (A.edges graph.now) (T.passes test.now)
            (bound_tree bound.now) in
            IfOk result (λ rows. All WalksOrTests (steps_of plan.now)
            → AreSame sought (IsToCome over (steps_of rows.plan) rows.partials)) }
        ensures quiet { let over = steps_over labels.now (A.edges graph.now) (K.edges links.now)
            (V.entries values.now) (P.reaches paths.now) (T.passes test.now) in
            IfOk result (λ rows. AreQuiet over (steps_of rows.plan)
            → ReadNothing over (steps_of rows.plan) rows.partials) }
    {
        note_distinct(labels);
        let ready = ready_steps(alloc, paths, labels, plan.steps.as_slice())?;
        let kept = none_kept(alloc, ready.len())?;
        let learned = Learned::new(alloc)?;
        let mut partials = Vec::new(alloc);
        partials.push(PartialRow {
            step: 0,
            row: Row::new(alloc),
        })?;
        let sources = Sources {
            graph,
            links,
            values,
            paths,
            test,
            hints,
            late,
            labels,
        };
        Ok(Rows {
            sources,
            plan,
            ready,
            kept,
            learned,
            partials,
        })
    }

    /// A row that was to come; None exactly where none is left. Where memory is refused the same rows
    /// are to come, and the call may be made again.
    ///
    /// No step is counted where the plan reads no edge: where the guide tells all, or where it begins
    /// with values and there is none.
    pub fn next<L: Ledger>(
        &mut self,
        alloc: Global,
        steps: &mut Steps<L>,
    ) -> Result<Option<Row>, NoMemory>
        ensures over { HasTheSamePlan self.old self.new }
        ensures row { let over = steps_over self.old.labels (A.edges self.old.graph)
            (K.edges self.old.links) (V.entries self.old.values) (P.reaches self.old.paths)
            (T.passes self.old.test) in
            IfOk result (AnswersNext (IsToCome over (steps_of self.old.plan) self.old.partials)
            (IsToCome over (steps_of self.old.plan) self.new.partials)) }
        ensures fewer { let count = length (steps_of self.old.plan) in
            IfOk result (λ row. IfSome row (λ _.
            work_left count self.new.partials < work_left count self.old.partials)) }
        ensures err { let over = steps_over self.old.labels (A.edges self.old.graph)
            (K.edges self.old.links) (V.entries self.old.values) (P.reaches self.old.paths)
            (T.passes self.old.test) in
            OnErr result (AreSame (IsToCome over (steps_of self.old.plan) self.old.partials)
            (IsToCome over (steps_of self.old.plan) self.new.partials)) }
        ensures quiet { let over = steps_over self.old.labels (A.edges self.old.graph)
            (K.edges self.old.links) (V.entries self.old.values) (P.reaches self.old.paths)
            (T.passes self.old.test) in
            ReadNothing over (steps_of self.old.plan) self.old.partials
            → OnOk result (steps.new ≡ steps.old)
            × ReadNothing over (steps_of self.old.plan) self.new.partials }
    {
        next_row(
            alloc,
            &self.sources,
            self.ready.as_slice(),
            &mut self.kept,
            &mut self.learned,
            &mut self.partials,
            steps,
        )
    }
}

// The texts of a table of labels are distinct. Nothing is done.
fn note_distinct(labels: &LabelTable)
    ensures { AllPairs (λ a b. a ≢ b) labels.now }
{
    let _count = labels.len();
}
