ghost use Rattle.std.specs.Prelude.{◌≡◌, Some, None, IfSome, IfOk, IfErr, OnOk};
ghost use Rattle.std.specs.declared.result.Result.TheVariants.{Ok as Done};
ghost use Rattle.lorel_trees.specs.Trees.{select_tree, select, blocks_of};
ghost use Rattle.lorel_bound.specs.Bound.{bound_tree};
ghost use Rattle.lore_base.specs.Verdicts.{IsClear, IsToldBy};
ghost use Rattle.lorel_bind.specs.Answers.{IsAnswer};
ghost use Rattle.lorel_bind.specs.Bindings.{IsBinding};
ghost use Rattle.lorel_bound.specs.Runnable.{IsRunnable};
ghost use Rattle.lorel_bound.specs.Plans.{IsPlanOf};
ghost use Rattle.lorel_ranges.specs.Texts.{IsShallow};
ghost use Rattle.lorel_bound.specs.SlotRows.{IsSlotRow};
ghost use Rattle.statements.specs.Types.{Rows as TheRows};
ghost use Rattle.statements.specs.Types.refusals;
ghost use Rattle.statements.specs.Blocks.{TellsPaths};
ghost use Rattle.statements.specs.Pasts.{database_over};
ghost use Rattle.statements.specs.Plans.{AreCountsOver, IsKindOver};
ghost use Rattle.statements.specs.Statements.{Cause, cause_order, Executes};
ghost use Rattle.statements.specs.Uncounted.{IsQuietBound, IsQuietSelect};
ghost use Rattle.statements.specs.Uncounted.{IsPlain, IsPlainSelect};
ghost use Rattle.statements.specs.inside.Starts.{HasNamedStarts};
ghost use Rattle.statements.specs.Stops.{told, OnReply};
ghost use Rattle.statements.specs.inside.Stages.{ReadCause, bind_order, read_order};
ghost use Rattle.answers.specs.Asked.{AreRows, AreTooMany};
ghost use Rattle.select_rows.specs.Views.{IsRowOf};

use crate::replies::Reply;
use crate::stops::Stop;
use guide_query::GuidePaths;
use index_traits::{Adjacent, Paths, ValueOf};
use lore_base::{Names, NoMemory, Refusal, Steps};
use lore_store::Store;
use lorel_bind::bind;
use lorel_bound::{Answer, Bound, Plan, PlanKind};
use lorel_trees::Select;
use planner::{choose, forward_plan, guided_plan};
use select_rows::{View, rows_over, takes_long_walks};
use std::alloc::Global;
use std::sync::ledger::Ledger;

// Where fewer objects are reached they are tested one by one.
const FEW: u32 = 64;

/// Selects rows. No step is counted where the guide tells all and no cell shows a word, or where no
/// value is found to begin with.
pub(crate) fn select<L: Ledger>(
    alloc: Global,
    store: &Store,
    query: &Select,
    steps: &mut Steps<L>,
) -> Result<Reply, Stop>
    requires { IsShallow (select_tree query.now) }
    ensures ok { IfOk result (λ reply.
        Executes store.now.db (select (select_tree query.now)) reply store.now.db) }
    ensures refused { let tree = select (select_tree query.now) in
        IfErr result (λ stop. IsToldBy (Cause store.now.db tree) cause_order (told stop)) }
    ensures quiet { OnReply result (IsQuietSelect store.now.db (select_tree query.now)
        → steps.new ≡ steps.old) }
{
    Ok(Reply::Rows(selected(alloc, store, query, steps)?))
}

/// The rows that a select answers. No step is counted where the guide tells all and no cell shows a
/// word, or where no value is found to begin with.
pub fn selected<L: Ledger>(
    alloc: Global,
    store: &Store,
    query: &Select,
    steps: &mut Steps<L>,
) -> Result<Answer, Stop>
    requires { IsShallow (select_tree query.now) }
    ensures ok { IfOk result (λ answer. Executes store.now.db (select (select_tree query.now))
        (TheRows answer) store.now.db) }
    ensures refused { let tree = select (select_tree query.now) in
        IfErr result (λ stop. IsToldBy (Cause store.now.db tree) cause_order (told stop)) }
    ensures quiet { OnReply result (IsQuietSelect store.now.db (select_tree query.now)
        → steps.new ≡ steps.old) }
{
    let answer = rows_of(alloc, store, query, steps)?;
    Ok(answer)
}

/// The rows of a select. Refused are one that can't be bound (`UnknownName`, `UnknownVariable`,
/// `DuplicateVariable`, `TooManyRanges`), and one with more rows than `ROWS`, or more labels
/// in their words than `PATH_LABELS` (`TooManyRows`).
pub(crate) fn rows_of<L: Ledger>(
    alloc: Global,
    store: &Store,
    query: &Select,
    steps: &mut Steps<L>,
) -> Result<Answer, Stop>
    requires { IsShallow (select_tree query.now) }
    ensures rows { IfOk result (λ answer. IsAnswer store.now.db (select_tree query.now) answer) }
    ensures ok { OnOk result (IsClear (ReadCause store.now.db (select_tree query.now)) read_order) }
    ensures refused { let cause = ReadCause store.now.db (select_tree query.now) in
        IfErr result (λ stop. IsToldBy cause read_order (told stop)) }
    ensures quiet { OnReply result (IsQuietSelect store.now.db (select_tree query.now)
        → steps.new ≡ steps.old) }
{
    let bound = bound(alloc, store, query)?;
    let found = found(alloc, store, &bound, steps);
    // A drop that is written out is proved once; else it is proved in this function, at length.
    drop(bound);
    found
}

/// A select, bound. Refused is one that can't be bound.
pub(crate) fn bound(alloc: Global, store: &Store, query: &Select) -> Result<Bound, Stop>
    requires { IsShallow (select_tree query.now) }
    ensures binding { IfOk result (λ bound.
        IsBinding store.now.db.graph.names (select_tree query.now) (bound_tree bound)) }
    ensures runnable { IfOk result (λ bound. IsRunnable (bound_tree bound)) }
    ensures named { IfOk result (λ bound.
        HasNamedStarts store.now.db.graph.names (bound_tree bound)) }
    ensures ok { OnOk result (IsClear (ReadCause store.now.db (select_tree query.now)) bind_order) }
    ensures refused { let cause = ReadCause store.now.db (select_tree query.now) in
        IfErr result (λ stop. IsToldBy cause bind_order (told stop)) }
{
    Ok(bind(alloc, query, store.graph().names())?)
}

/// The plan of a bound select, by the mode and what the guide and the value index tell. No edge is
/// read.
pub(crate) fn plan_of(alloc: Global, store: &Store, bound: &Bound) -> Result<Plan, NoMemory>
    requires runnable { IsRunnable (bound_tree bound.now) }
    requires named { HasNamedStarts store.now.db.graph.names (bound_tree bound.now) }
    ensures counts { let tree = bound_tree bound.now in
        IfOk result (λ plan. AreCountsOver store.now.db tree plan.candidates plan.found) }
    ensures kind { IfOk result (λ plan.
        IsKindOver store.now.db plan.candidates plan.found plan.kind) }
    ensures steps { IfOk result (IsPlanOf store.now.db.labels (bound_tree bound.now)) }
{
    let (graph, labels, guide) = (store.graph(), store.labels(), store.guide());
    let paths = GuidePaths::new(guide, graph.names(), labels);
    let (mode, values) = (store.mode(), store.values());
    let (objects, nodes) = (graph.objects(), guide.len());
    choose(alloc, bound, mode, values, &paths, labels, objects, nodes)
}

/// The rows of a bound select. Refused are more than `ROWS`, and more than `PATH_LABELS` labels in
/// their words.
pub(crate) fn found<L: Ledger>(
    alloc: Global,
    store: &Store,
    bound: &Bound,
    steps: &mut Steps<L>,
) -> Result<Answer, Stop>
    requires runnable { IsRunnable (bound_tree bound.now) }
    requires named { HasNamedStarts store.now.db.graph.names (bound_tree bound.now) }
    ensures quiet { OnReply result (IsQuietBound store.now.db (bound_tree bound.now)
        → steps.new ≡ steps.old) }
    ensures rows { IfOk result (AreRows (IsSlotRow store.now.db (bound_tree bound.now))) }
    ensures refused { let asked = IsSlotRow store.now.db (bound_tree bound.now) in
        IfErr result (λ stop. IfSome (told stop) (λ refusal.
        (refusal ≡ refusals.TooManyRows) × AreTooMany asked)) }
{
    let plan = plan_of(alloc, store, bound)?;
    let (graph, labels) = (store.graph(), store.labels());
    let paths = GuidePaths::new(store.guide(), graph.names(), labels);
    let view = View {
        graph,
        labels,
        links: store.links(),
        values: store.values(),
        paths: &paths,
        indexed: can_help(bound, &plan),
    };
    answer_of(rows_over(alloc, &view, bound, &plan, steps))
}

// The rows that were found; where they are more than an answer may have, the refusal.
fn answer_of(found: Result<Option<Answer>, NoMemory>) -> Result<Answer, Stop>
    ensures ok { IfOk result (λ answer. found ≡ Done (Some answer)) }
    ensures refused { IfErr result (λ stop. IfSome (told stop) (λ refusal.
        (refusal ≡ refusals.TooManyRows) × (found ≡ Done None))) }
{
    match found {
        Ok(Some(answer)) => Ok(answer),
        Ok(None) => Err(Stop::Refused(Refusal::TooManyRows)),
        Err(_error) => Err(Stop::NoMemory),
    }
}

// Whether the indexes may help to carry out the plan: there are further ranges to be joined; or the
// condition takes long walks; or the plan doesn't begin with values as it is, and as far as was
// counted the range that a comparison reads has more than a few objects.
fn can_help(bound: &Bound, plan: &Plan) -> bool {
    if bound.ranges.len() > 1 {
        return true;
    }
    if plan.kind == PlanKind::Bottom {
        return takes_long_walks(bound.cond.as_ref());
    }
    match plan.found {
        Some(found) => found >= FEW,
        None => true,
    }
}

/// The rows of a select over a graph with these names, whose labels are in the store's table: they
/// are found from the names alone. Refused is what a select over these names and this graph is
/// refused for.
pub fn select_over<G: Adjacent + ValueOf, L: Ledger>(
    alloc: Global,
    store: &Store,
    names: &Names,
    graph: &G,
    query: &Select,
    steps: &mut Steps<L>,
) -> Result<Answer, Stop>
    requires { IsShallow (select_tree query.now) }
    ensures ok { let db = database_over store.now.db names.now (G.objects graph.now)
        (G.edges graph.now) in IfOk result (λ answer.
        Executes db (select (select_tree query.now)) (TheRows answer) db) }
    ensures refused { let db = database_over store.now.db names.now (G.objects graph.now)
        (G.edges graph.now) in let tree = select (select_tree query.now) in
        IfErr result (λ stop. IsToldBy (Cause db tree) cause_order (told stop)) }
{
    let bound = bind(alloc, query, names)?;
    let found = found_over(alloc, store, graph, &bound, steps);
    // A drop that is written out is proved once; else it is proved in this function, at length.
    drop(bound);
    found
}

// The rows of a bound select over the graph. The store's links, values and paths are of the
// present: a plan from names asks nothing of them.
fn found_over<G: Adjacent + ValueOf, L: Ledger>(
    alloc: Global,
    store: &Store,
    graph: &G,
    bound: &Bound,
    steps: &mut Steps<L>,
) -> Result<Answer, Stop>
    requires { IsRunnable (bound_tree bound.now) }
    ensures rows { IfOk result (AreRows (IsRowOf store.now.db.labels (G.edges graph.now)
        (G.objects graph.now) (bound_tree bound.now))) }
    ensures refused { let asked = IsRowOf store.now.db.labels (G.edges graph.now)
        (G.objects graph.now) (bound_tree bound.now) in
        IfErr result (λ stop. IfSome (told stop) (λ refusal.
        (refusal ≡ refusals.TooManyRows) × AreTooMany asked)) }
{
    let plan = forward_plan(alloc, bound)?;
    let (kept, labels) = (store.graph(), store.labels());
    let paths = GuidePaths::new(store.guide(), kept.names(), labels);
    let view = View {
        graph,
        labels,
        links: store.links(),
        values: store.values(),
        paths: &paths,
        indexed: false,
    };
    answer_of(rows_over(alloc, &view, bound, &plan, steps))
}

/// The rows of a select by the plan that mode guided chooses, where what paths reach is told by
/// these in place of the guide. Refused is what a select is refused for. No step is counted where
/// there is at most one range, no condition, and no cell that shows a word.
pub fn select_by<P: Paths, L: Ledger>(
    alloc: Global,
    store: &Store,
    paths: &P,
    query: &Select,
    steps: &mut Steps<L>,
) -> Result<Answer, Stop>
    requires shallow { IsShallow (select_tree query.now) }
    requires tells { TellsPaths (P.reaches paths.now) store.now.db }
    ensures ok { let db = store.now.db in IfOk result (λ answer.
        Executes db (blocks_of (select_tree query.now)) (TheRows answer) db) }
    ensures refused { let tree = blocks_of (select_tree query.now) in
        IfErr result (λ stop. IsToldBy (Cause store.now.db tree) cause_order (told stop)) }
    ensures quiet { OnReply result (IsPlainSelect store.now.db (select_tree query.now)
        → steps.new ≡ steps.old) }
{
    let bound = bound(alloc, store, query)?;
    let found = found_by(alloc, store, paths, &bound, steps);
    // A drop that is written out is proved once; else it is proved in this function, at length.
    drop(bound);
    found
}

// The rows of a bound select, where these tell what paths reach.
fn found_by<P: Paths, L: Ledger>(
    alloc: Global,
    store: &Store,
    paths: &P,
    bound: &Bound,
    steps: &mut Steps<L>,
) -> Result<Answer, Stop>
    requires runnable { IsRunnable (bound_tree bound.now) }
    requires named { HasNamedStarts store.now.db.graph.names (bound_tree bound.now) }
    requires tells { TellsPaths (P.reaches paths.now) store.now.db }
    ensures rows { IfOk result (AreRows (IsSlotRow store.now.db (bound_tree bound.now))) }
    ensures refused { let asked = IsSlotRow store.now.db (bound_tree bound.now) in
        IfErr result (λ stop. IfSome (told stop) (λ refusal.
        (refusal ≡ refusals.TooManyRows) × AreTooMany asked)) }
    ensures quiet { OnReply result (IsPlain (bound_tree bound.now) → steps.new ≡ steps.old) }
{
    let plan = guided_plan(alloc, bound)?;
    let (graph, labels) = (store.graph(), store.labels());
    let view = View {
        graph,
        labels,
        links: store.links(),
        values: store.values(),
        paths,
        indexed: false,
    };
    answer_of(rows_over(alloc, &view, bound, &plan, steps))
}
