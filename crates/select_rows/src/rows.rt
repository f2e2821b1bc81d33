ghost use Rattle.std.specs.Prelude.{◌≡◌, ◌≢◌, ◌⊎◌, ◌↔◌, List, [], All, AllPairs, MatchOption};
ghost use Rattle.std.specs.Prelude.{IsTrue, IfOk, IfSome, OnOk};
ghost use Rattle.lorel_bound.specs.Bound.{bound_cond, bound_tree};
ghost use Rattle.lorel_bound.specs.Runnable.{IsRunnable};
ghost use Rattle.lorel_bound.specs.Plans.{IsPlanOf, steps_of};
ghost use Rattle.lorel_bound.specs.SlotRows.{HoldsOver};
ghost use Rattle.plan_laws.specs.Steps.{Agrees, Finishes, steps_over, in_eight};
ghost use Rattle.plan_ops.specs.Rows.{WalksOrTests};
ghost use Rattle.index_eval.specs.Indexes.{AreIndexes};
ghost use Rattle.answers.specs.Asked.{AreRows, AreTooMany};
ghost use Rattle.select_hints.specs.Hints.{AreHints};
ghost use Rattle.select_rows.specs.Types.{Oid as TheOid};
ghost use Rattle.select_rows.specs.Views.{view_over, IsRowOf, ReadsNone};

use crate::row_tests::{joined_over, takes_long_walks, test_over};
use crate::views::View;
use answers::all_rows;
use index_eval::{IndexedTest, Pace};
use index_traits::{Adjacent, Links, Paths, RowTest, ValueOf, Values};
use lore_base::{NoMemory, Steps};
use lorel_bound::{Answer, Bound, BoundCond, Plan};
use oem_labels::LabelTable;
use plan_ops::Rows;
use select_hints::{hints_for, late_from};
use slot_joins::JoinedTest;
use std::alloc::Global;
use std::sync::ledger::Ledger;

/// The rows of a bound select by a plan of it; None exactly where there are more than `ROWS`, or
/// more than `PATH_LABELS` labels in their words.
///
/// A plan that walks forward alone asks nothing of links, values and paths; else they are the
/// graph's. No step is counted where the plan reads no edge, and either no cell shows a word or
/// there is no row.
pub fn rows_over<G: Adjacent + ValueOf, K: Links, V: Values, P: Paths, L: Ledger>(
    alloc: Global,
    view: &View<'_, G, K, V, P>,
    bound: &Bound,
    plan: &Plan,
    steps: &mut Steps<L>,
) -> Result<Option<Answer>, NoMemory>
    requires runnable { IsRunnable (bound_tree bound.now) }
    requires planned { IsPlanOf view.now.labels.now (bound_tree bound.now) plan.now }
    requires indexed { IsTrue view.now.indexed → AreIndexes (G.objects view.now.graph.now)
        (G.edges view.now.graph.now) (K.edges view.now.links.now) (V.entries view.now.values.now) }
    requires fits { let over = view_over view.now.labels.now (G.edges view.now.graph.now)
        (G.objects view.now.graph.now) (K.edges view.now.links.now) (V.entries view.now.values.now)
        (P.reaches view.now.paths.now) (bound_tree bound.now) in
        All WalksOrTests (steps_of plan.now)
        ⊎ Agrees over (G.objects view.now.graph.now) (bound_tree bound.now) }
    ensures rows { let asked = IsRowOf view.now.labels.now (G.edges view.now.graph.now)
        (G.objects view.now.graph.now) (bound_tree bound.now) in
        IfOk result (λ found. MatchOption found (AreTooMany asked) (AreRows asked)) }
    ensures quiet { let over = view_over view.now.labels.now (G.edges view.now.graph.now)
        (G.objects view.now.graph.now) (K.edges view.now.links.now) (V.entries view.now.values.now)
        (P.reaches view.now.paths.now) (bound_tree bound.now) in
        OnOk result (ReadsNone over (bound_tree bound.now) (steps_of plan.now)
        → steps.new ≡ steps.old) }
{
    let Some(hints) = hints_of(alloc, view, bound)? else {
        return rows_by(alloc, view, bound, plan, steps);
    };
    let found = rows_hinted(alloc, view, bound, &hints, plan, steps);
    // A drop that is written out is proved once; else it is proved in this function, at length.
    drop(hints);
    found
}

// The condition with hints; None where there are none, where no index tells by them which objects
// fit, and where rows may be looked up.
fn hints_of<G, K, V, P>(
    alloc: Global,
    view: &View<'_, G, K, V, P>,
    bound: &Bound,
) -> Result<Option<BoundCond>, NoMemory>
    requires { IsRunnable (bound_tree bound.now) }
    ensures hints { IfOk result (λ found. IfSome found (λ hints.
        AreHints (bound_tree bound.now) (bound_cond hints))) }
    ensures indexed { IfOk result (λ found. IfSome found (λ hints. IsTrue view.now.indexed)) }
{
    if !view.indexed {
        return Ok(None);
    }
    // A hint could be taken in place of the member that rows are looked up by.
    if takes_long_walks(bound.cond.as_ref()) {
        return Ok(None);
    }
    hints_for(alloc, bound)
}

// The rows of `rows_over` by the condition alone.
fn rows_by<G: Adjacent + ValueOf, K: Links, V: Values, P: Paths, L: Ledger>(
    alloc: Global,
    view: &View<'_, G, K, V, P>,
    bound: &Bound,
    plan: &Plan,
    steps: &mut Steps<L>,
) -> Result<Option<Answer>, NoMemory>
    requires runnable { IsRunnable (bound_tree bound.now) }
    requires planned { IsPlanOf view.now.labels.now (bound_tree bound.now) plan.now }
    requires indexed { IsTrue view.now.indexed → AreIndexes (G.objects view.now.graph.now)
        (G.edges view.now.graph.now) (K.edges view.now.links.now) (V.entries view.now.values.now) }
    requires fits { let over = view_over view.now.labels.now (G.edges view.now.graph.now)
        (G.objects view.now.graph.now) (K.edges view.now.links.now) (V.entries view.now.values.now)
        (P.reaches view.now.paths.now) (bound_tree bound.now) in
        All WalksOrTests (steps_of plan.now)
        ⊎ Agrees over (G.objects view.now.graph.now) (bound_tree bound.now) }
    ensures rows { let asked = IsRowOf view.now.labels.now (G.edges view.now.graph.now)
        (G.objects view.now.graph.now) (bound_tree bound.now) in
        IfOk result (λ found. MatchOption found (AreTooMany asked) (AreRows asked)) }
    ensures quiet { let over = view_over view.now.labels.now (G.edges view.now.graph.now)
        (G.objects view.now.graph.now) (K.edges view.now.links.now) (V.entries view.now.values.now)
        (P.reaches view.now.paths.now) (bound_tree bound.now) in
        OnOk result (ReadsNone over (bound_tree bound.now) (steps_of plan.now)
        → steps.new ≡ steps.old) }
{
    let pace = Pace::new();
    let cond = bound.cond.as_ref();
    let test = test_over(alloc, view, cond, plan, &pace, steps)?;
    let joined = joined_over(alloc, view, test, cond, plan, steps)?;
    answer_by(alloc, view, &joined, &joined, None, bound, plan, steps)
}

// The same with hints.
fn rows_hinted<G: Adjacent + ValueOf, K: Links, V: Values, P: Paths, L: Ledger>(
    alloc: Global,
    view: &View<'_, G, K, V, P>,
    bound: &Bound,
    hints: &BoundCond,
    plan: &Plan,
    steps: &mut Steps<L>,
) -> Result<Option<Answer>, NoMemory>
    requires runnable { IsRunnable (bound_tree bound.now) }
    requires planned { IsPlanOf view.now.labels.now (bound_tree bound.now) plan.now }
    requires indexed { AreIndexes (G.objects view.now.graph.now) (G.edges view.now.graph.now)
        (K.edges view.now.links.now) (V.entries view.now.values.now) }
    requires hints { AreHints (bound_tree bound.now) (bound_cond hints.now) }
    requires fits { let over = view_over view.now.labels.now (G.edges view.now.graph.now)
        (G.objects view.now.graph.now) (K.edges view.now.links.now) (V.entries view.now.values.now)
        (P.reaches view.now.paths.now) (bound_tree bound.now) in
        All WalksOrTests (steps_of plan.now)
        ⊎ Agrees over (G.objects view.now.graph.now) (bound_tree bound.now) }
    ensures rows { let asked = IsRowOf view.now.labels.now (G.edges view.now.graph.now)
        (G.objects view.now.graph.now) (bound_tree bound.now) in
        IfOk result (λ found. MatchOption found (AreTooMany asked) (AreRows asked)) }
    ensures quiet { let over = view_over view.now.labels.now (G.edges view.now.graph.now)
        (G.objects view.now.graph.now) (K.edges view.now.links.now) (V.entries view.now.values.now)
        (P.reaches view.now.paths.now) (bound_tree bound.now) in
        OnOk result (ReadsNone over (bound_tree bound.now) (steps_of plan.now)
        → steps.new ≡ steps.old) }
{
    let (graph, labels, links, values) = (view.graph, view.labels, view.links, view.values);
    note_distinct(labels);
    let pace = Pace::new();
    let cond = bound.cond.as_ref();
    let test = IndexedTest::new(alloc, cond, graph, labels, links, values, &pace)?;
    // Hints that compare what two paths reach would be tested by all pairs of it.
    let early = IndexedTest::for_hints(alloc, Some(hints), graph, labels, links, values, &pace)?;
    let whole = JoinedTest::alone(alloc, test, graph);
    let joined = joined_over(alloc, view, early, Some(hints), plan, steps)?;
    let late = Some(late_from(bound, hints));
    answer_by(alloc, view, &whole, &joined, late, bound, plan, steps)
}

// The texts of a table of labels are distinct. Nothing is done.
fn note_distinct(labels: &LabelTable)
    ensures { AllPairs (λ a b. a ≢ b) labels.now }
{
    let _count = labels.len();
}

// The rows that pass a test of the condition, with hints, which each of them passes.
fn answer_by<G: Adjacent + ValueOf, K: Links, V: Values, P: Paths, T: RowTest, L: Ledger>(
    alloc: Global,
    view: &View<'_, G, K, V, P>,
    test: &T,
    hints: &T,
    late: Option<u32>,
    bound: &Bound,
    plan: &Plan,
    steps: &mut Steps<L>,
) -> Result<Option<Answer>, NoMemory>
    requires runnable { IsRunnable (bound_tree bound.now) }
    requires planned { IsPlanOf view.now.labels.now (bound_tree bound.now) plan.now }
    requires passes { (row : List TheOid) → T.passes test.now row ↔ HoldsOver view.now.labels.now
        (G.edges view.now.graph.now) (G.objects view.now.graph.now) row (bound_tree bound.now).cond }
    requires hints { let over = steps_over view.now.labels.now (G.edges view.now.graph.now)
        (K.edges view.now.links.now) (V.entries view.now.values.now) (P.reaches view.now.paths.now)
        (T.passes test.now) in
        (row : List TheOid) → Finishes over (steps_of plan.now) (in_eight []) row
        → T.passes test.now row → T.passes hints.now row }
    requires fits { let over = view_over view.now.labels.now (G.edges view.now.graph.now)
        (G.objects view.now.graph.now) (K.edges view.now.links.now) (V.entries view.now.values.now)
        (P.reaches view.now.paths.now) (bound_tree bound.now) in
        All WalksOrTests (steps_of plan.now)
        ⊎ Agrees over (G.objects view.now.graph.now) (bound_tree bound.now) }
    ensures rows { let asked = IsRowOf view.now.labels.now (G.edges view.now.graph.now)
        (G.objects view.now.graph.now) (bound_tree bound.now) in
        IfOk result (λ found. MatchOption found (AreTooMany asked) (AreRows asked)) }
    ensures quiet { let over = view_over view.now.labels.now (G.edges view.now.graph.now)
        (G.objects view.now.graph.now) (K.edges view.now.links.now) (V.entries view.now.values.now)
        (P.reaches view.now.paths.now) (bound_tree bound.now) in
        OnOk result (ReadsNone over (bound_tree bound.now) (steps_of plan.now)
        → steps.new ≡ steps.old) }
{
    let (graph, labels) = (view.graph, view.labels);
    let (links, values, paths) = (view.links, view.values, view.paths);
    let mut rows = Rows::with_hints(
        alloc, graph, links, values, paths, test, hints, late, bound, plan, labels,
    )?;
    all_rows(alloc, &mut rows, bound, graph, labels, steps)
}
