ghost use Rattle.std.specs.Prelude.{◌≡◌, ◌≤◌, List, All, option_map};
ghost use Rattle.std.specs.Prelude.{IsTrue, IfOk, IfSome};
ghost use Rattle.std.specs.Option.{option_copied};
ghost use Rattle.lorel_bound.specs.Bound.{bound_cond};
ghost use Rattle.lorel_bound.specs.Conditions.{paths_in};
ghost use Rattle.lorel_bound.specs.Plans.{steps_of};
ghost use Rattle.lorel_bound.specs.SlotRows.{HoldsOver};
ghost use Rattle.lorel_eval.specs.Tests.{rest_leaves};
ghost use Rattle.plan_laws.specs.Orders.{CanBeReady};
ghost use Rattle.index_eval.specs.Indexes.{AreIndexes};
ghost use Rattle.select_rows.specs.Types.{Oid as TheOid, LEAVES};
ghost use Rattle.select_rows.specs.inside.Reads.{ReadsSome};

use crate::beginnings::many_first;
use crate::views::View;
use index_eval::{IndexedTest, Pace, may_be_listed};
use index_traits::{Adjacent, Links, Paths, RowTest, ValueOf, Values};
use lore_base::{NoMemory, Steps};
use lorel_bound::{BoundCond, Plan, PlanStep};
use slot_joins::{Indexed, JoinedTest, fewest_of, may_be_joined};
use std::alloc::Global;
use std::sync::ledger::Ledger;

// From so many objects for the first slot on, what leads to those that fit is found once, and not
// by a test of each.
const MANY: usize = 1_024;

// From so many objects for the first slot on, tables are made for what the condition compares of
// it: to list what enters one object may take longer than fewer rows do.
const MANY_JOINED: u32 = 256;

/// Whether objects for which the condition holds may be listed, in place of a long walk from each.
pub fn takes_long_walks(cond: Option<&BoundCond>) -> bool {
    match cond {
        Some(cond) => may_be_listed(cond),
        None => false,
    }
}

/// The test of a condition, with the help of the indexes where they are those of the graph. Where
/// many rows are to be tested, the objects of a member that takes long walks are listed once. No
/// step is counted where the plan reads no edge.
pub(crate) fn test_over<'a, 'p, G: Adjacent + ValueOf, K: Links, V: Values, P: Paths, L: Ledger>(
    alloc: Global,
    view: &View<'a, G, K, V, P>,
    cond: Option<&'a BoundCond>,
    plan: &Plan,
    pace: &'p Pace,
    steps: &mut Steps<L>,
) -> Result<IndexedTest<'a, 'p, G, K, V>, NoMemory>
    requires leaves { rest_leaves (paths_in (option_map bound_cond (option_copied cond))) ≤ LEAVES }
    requires ready { All CanBeReady (steps_of plan.now) }
    requires indexed { IsTrue view.now.indexed → AreIndexes (G.objects view.now.graph.now)
        (G.edges view.now.graph.now) (K.edges view.now.links.now) (V.entries view.now.values.now) }
    ensures labels { IfOk result (λ test. test.labels ≡ view.now.labels.now) }
    ensures edges { IfOk result (λ test. test.edges ≡ G.edges view.now.graph.now) }
    ensures objects { IfOk result (λ test. test.objects ≡ G.objects view.now.graph.now) }
    ensures cond { IfOk result (λ test. test.cond ≡ option_copied cond.entry) }
    ensures quiet { (ReadsSome (V.entries view.now.values.now) (steps_of plan.now) → ⊥)
        → steps.new ≡ steps.old }
{
    let (graph, labels, links, values) = (view.graph, view.labels, view.links, view.values);
    if !view.indexed {
        return IndexedTest::plain(alloc, cond, graph, labels, links, values, pace);
    }
    if tests_many(alloc, view, cond, plan)? {
        return IndexedTest::listed(alloc, cond, graph, labels, links, values, pace, steps);
    }
    IndexedTest::new(alloc, cond, graph, labels, links, values, pace)
}

// Whether many rows may be tested of a condition with a member whose objects may be listed.
fn tests_many<G, K, V: Values, P: Paths>(
    alloc: Global,
    view: &View<'_, G, K, V, P>,
    cond: Option<&BoundCond>,
    plan: &Plan,
) -> Result<bool, NoMemory>
    requires { All CanBeReady (steps_of plan.now) }
    ensures { IfOk result (λ answer. IsTrue answer
        → ReadsSome (V.entries view.now.values.now) (steps_of plan.now)) }
{
    if !takes_long_walks(cond) {
        return Ok(false);
    }
    let steps = plan.steps.as_slice();
    let many = many_first(alloc, view.values, view.paths, steps, MANY)?;
    Ok(many.is_some())
}

/// The test of a condition with tables for what it compares of slots, where many rows may be
/// looked up in them. No step is counted where the plan reads no edge.
pub(crate) fn joined_over<
    'a,
    G: Adjacent + ValueOf,
    K: Links,
    V: Values,
    P: Paths,
    T: RowTest + Drop,
    L: Ledger,
>(
    alloc: Global,
    view: &View<'a, G, K, V, P>,
    test: T,
    cond: Option<&BoundCond>,
    plan: &Plan,
    steps: &mut Steps<L>,
) -> Result<JoinedTest<'a, T, G>, NoMemory>
    requires ready { All CanBeReady (steps_of plan.now) }
    requires indexed { IsTrue view.now.indexed → AreIndexes (G.objects view.now.graph.now)
        (G.edges view.now.graph.now) (K.edges view.now.links.now) (V.entries view.now.values.now) }
    requires passes { (row : List TheOid) → T.passes test row → HoldsOver view.now.labels.now
        (G.edges view.now.graph.now) (G.objects view.now.graph.now) row
        (option_map bound_cond (option_copied cond)) }
    ensures test { IfOk result (λ joined. joined ≡ test) }
    ensures quiet { (ReadsSome (V.entries view.now.values.now) (steps_of plan.now) → ⊥)
        → steps.new ≡ steps.old }
{
    if !view.indexed {
        return Ok(JoinedTest::alone(alloc, test, view.graph));
    }
    let Some(cond) = cond else {
        return Ok(JoinedTest::alone(alloc, test, view.graph));
    };
    let Some(joining) = joining_of(alloc, view, cond, plan)? else {
        return Ok(JoinedTest::alone(alloc, test, view.graph));
    };
    let indexed = Indexed {
        graph: view.graph,
        labels: view.labels,
        links: view.links,
        values: view.values,
    };
    let slots = joining.slots.as_slice();
    JoinedTest::joined(alloc, test, &indexed, cond, slots, joining.count, steps)
}

// What tables are made by: the slots in the order in which a plan fills them, and how many objects
// may stand for the first one.
#[derive(Drop)]
struct Joining {
    slots: Vec<u32>,
    count: u32,
}

// The same of a plan; None where no table is to be made.
fn joining_of<G, K, V: Values, P: Paths>(
    alloc: Global,
    view: &View<'_, G, K, V, P>,
    cond: &BoundCond,
    plan: &Plan,
) -> Result<Option<Joining>, NoMemory>
    requires { All CanBeReady (steps_of plan.now) }
    ensures { IfOk result (λ found. IfSome found (λ joining.
        ReadsSome (V.entries view.now.values.now) (steps_of plan.now))) }
{
    if !may_be_joined(cond) {
        return Ok(None);
    }
    let steps = plan.steps.as_slice();
    let least = MANY_JOINED as usize;
    let Some(first) = many_first(alloc, view.values, view.paths, steps, least)? else {
        return Ok(None);
    };
    let slots = filled_slots(alloc, steps)?;
    let slot = slots.as_slice().first().copied();
    let count = fewest_of(view.values, view.labels, cond, slot, first);
    if count < MANY_JOINED {
        return Ok(None);
    }
    Ok(Some(Joining { slots, count }))
}

// The slots that the steps fill, in their order.
fn filled_slots(alloc: Global, steps: &[PlanStep]) -> Result<Vec<u32>, NoMemory> {
    let mut slots = Vec::with_capacity(alloc, steps.len())?;
    'steps: for step in steps {
        match step {
            PlanStep::Forward { slot, .. } => slots.push(*slot)?,
            PlanStep::FromGuide { slot, .. } => slots.push(*slot)?,
            PlanStep::FromValue { slot, .. } => slots.push(*slot)?,
            PlanStep::Backward { parent, .. } => slots.push(*parent)?,
            PlanStep::Check { .. } => (),
            PlanStep::Filter => (),
        }
    }
    Ok(slots)
}
