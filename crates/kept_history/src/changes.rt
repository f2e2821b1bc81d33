ghost use Rattle.std.specs.Prelude.{◌≡◌, IfOk, IfErr, OnOk, OnErr};
ghost use Rattle.lore_base.specs.Deltas.{IsDelta};
ghost use Rattle.lore_store.specs.Stores.{IsPreparedFor, HasRoomFor, database_then};
ghost use Rattle.doem_history.specs.Moments.{Moment};
ghost use Rattle.doem_history.specs.declared.faults.HistoryFault.TheVariants as fault;
ghost use Rattle.kept_history.specs.Kept.{present, kept_moments, moments_then, IsLast, IsFullWith};
ghost use Rattle.kept_history.specs.Kept.{AppendsTo, HasRoomForMoment};

use doem_history::{History, HistoryFault, HistoryPlan};
use lore_base::NoMemory;
use lore_store::{Prepared, Store};

/// Makes a change that was prepared, and appends the moment that it leads to, where a history is
/// kept. Nothing changes where an error is answered: `Full` where the history would be full.
///
/// The moment is planned, and room is made for both, before either is put in place. `drop` is
/// written out here: what a function still holds is proved to be let go at each of its returns,
/// which takes long for large values.
pub fn make_change(
    store: &mut Store,
    history: &mut Option<History>,
    prepared: Prepared,
) -> Result<(), HistoryFault>
    requires leads { IsPreparedFor store.old.db store.old.guide prepared }
    requires delta { IsDelta store.old.db.graph (database_then store.old.db prepared).graph
        prepared.graph.delta }
    requires last { IsLast history.old (present store.old.db) }
    ensures ok { OnOk result (store.new.db ≡ database_then store.old.db prepared) }
    ensures moments { let after = present (database_then store.old.db prepared) in
        OnOk result (kept_moments history.new ≡ moments_then (kept_moments history.old) after) }
    ensures last { OnOk result (IsLast history.new (present store.new.db)) }
    ensures light { let after = present (database_then store.old.db prepared) in
        OnOk result (¬ IsFullWith history.old after) }
    ensures same { OnErr result (store.new.db ≡ store.old.db) }
    ensures same_moments { OnErr result (kept_moments history.new ≡ kept_moments history.old) }
    ensures same_last { OnErr result (IsLast history.new (present store.new.db)) }
    ensures full { let after = present (database_then store.old.db prepared) in
        IfErr result (λ cause. cause ≡ fault.Full → IsFullWith history.old after) }
{
    match reserved_plan(store, history, &prepared) {
        Ok(plan) => {
            put_in_place(store, history, prepared, plan);
            Ok(())
        }
        Err(cause) => {
            drop(prepared);
            Err(cause)
        }
    }
}

// The plan of the moment that a change leads to, once there is room for both. Nothing but room
// changes.
fn reserved_plan(
    store: &mut Store,
    history: &mut Option<History>,
    prepared: &Prepared,
) -> Result<Option<HistoryPlan>, HistoryFault>
    requires leads { IsPreparedFor store.old.db store.old.guide prepared.now }
    requires delta { IsDelta store.old.db.graph (database_then store.old.db prepared.now).graph
        prepared.now.graph.delta }
    requires last { IsLast history.old (present store.old.db) }
    ensures room { OnOk result (HasRoomFor store.new prepared.now) }
    ensures same { store.new.db ≡ store.old.db }
    ensures guide { store.new.guide ≡ store.old.guide }
    ensures appends { let after = present (database_then store.old.db prepared.now) in
        IfOk result (λ plan. AppendsTo history.new plan after) }
    ensures place { IfOk result (HasRoomForMoment history.new) }
    ensures moments { kept_moments history.new ≡ kept_moments history.old }
    ensures last { IsLast history.new (present store.old.db) }
    ensures light { let after = present (database_then store.old.db prepared.now) in
        OnOk result (¬ IsFullWith history.old after) }
    ensures full { let after = present (database_then store.old.db prepared.now) in
        IfErr result (λ cause. cause ≡ fault.Full → IsFullWith history.old after) }
{
    let plan = plan_moment(history, store, prepared)?;
    match reserve_both(store, history, prepared, &plan) {
        Ok(()) => Ok(plan),
        Err(_refused) => {
            drop(plan);
            Err(HistoryFault::NoMemory)
        }
    }
}

// Makes room for a change, and for the moment that it leads to.
fn reserve_both(
    store: &mut Store,
    history: &mut Option<History>,
    prepared: &Prepared,
    plan: &Option<HistoryPlan>,
) -> Result<(), NoMemory>
    ensures room { OnOk result (HasRoomFor store.new prepared.now) }
    ensures same { store.new.db ≡ store.old.db }
    ensures guide { store.new.guide ≡ store.old.guide }
    ensures place { OnOk result (HasRoomForMoment history.new plan.now) }
    ensures moments { kept_moments history.new ≡ kept_moments history.old }
    ensures last { (moment : Moment) → IsLast history.old moment → IsLast history.new moment }
    ensures appends { (after : Moment)
        → AppendsTo history.old plan.now after → AppendsTo history.new plan.now after }
{
    store.reserve(prepared)?;
    reserve_moment(history, plan)
}

// Puts a change and the moment that it leads to in place. Takes no memory.
fn put_in_place(
    store: &mut Store,
    history: &mut Option<History>,
    prepared: Prepared,
    plan: Option<HistoryPlan>,
)
    requires leads { IsPreparedFor store.old.db store.old.guide prepared }
    requires room { HasRoomFor store.old prepared }
    requires appends { AppendsTo history.old plan (present (database_then store.old.db prepared)) }
    requires place { HasRoomForMoment history.old plan }
    ensures made { store.new.db ≡ database_then store.old.db prepared }
    ensures moments { let after = present (database_then store.old.db prepared) in
        kept_moments history.new ≡ moments_then (kept_moments history.old) after }
    ensures last { IsLast history.new (present store.new.db) }
{
    store.commit(prepared);
    commit_moment(history, plan);
}

// The plan of the moment that a change leads to; none where no history is kept. `Full` where the
// history would be full with it.
fn plan_moment(
    history: &Option<History>,
    store: &Store,
    prepared: &Prepared,
) -> Result<Option<HistoryPlan>, HistoryFault>
    requires leads { IsPreparedFor store.now.db store.now.guide prepared.now }
    requires delta { IsDelta store.now.db.graph (database_then store.now.db prepared.now).graph
        prepared.now.graph.delta }
    requires last { IsLast history.now (present store.now.db) }
    ensures appends { let after = present (database_then store.now.db prepared.now) in
        IfOk result (λ plan. AppendsTo history.now plan after) }
    ensures light { let after = present (database_then store.now.db prepared.now) in
        OnOk result (¬ IsFullWith history.now after) }
    ensures full { let after = present (database_then store.now.db prepared.now) in
        IfErr result (λ cause. cause ≡ fault.Full → IsFullWith history.now after) }
{
    let Some(history) = history else {
        return Ok(None);
    };
    match history.prepare(prepared.delta()) {
        Ok(plan) => Ok(Some(plan)),
        Err(cause) => Err(cause),
    }
}

// Makes room for the moment, where a history is kept.
fn reserve_moment(history: &mut Option<History>, plan: &Option<HistoryPlan>) -> Result<(), NoMemory>
    ensures room { OnOk result (HasRoomForMoment history.new plan.now) }
    ensures moments { kept_moments history.new ≡ kept_moments history.old }
    ensures last { (moment : Moment) → IsLast history.old moment → IsLast history.new moment }
    ensures appends { (after : Moment)
        → AppendsTo history.old plan.now after → AppendsTo history.new plan.now after }
{
    let Some(history) = history else {
        return Ok(());
    };
    let Some(plan) = plan else {
        return Ok(());
    };
    history.reserve(plan)
}

// Appends the moment, where a history is kept.
fn commit_moment(history: &mut Option<History>, plan: Option<HistoryPlan>)
    requires appends { (after : Moment) × AppendsTo history.old plan after }
    requires room { HasRoomForMoment history.old plan }
    ensures moments { (after : Moment) → AppendsTo history.old plan after
        → kept_moments history.new ≡ moments_then (kept_moments history.old) after }
    ensures last { (after : Moment) → AppendsTo history.old plan after
        → IsLast history.new after }
{
    let Some(history) = history else {
        return;
    };
    let Some(plan) = plan else {
        return;
    };
    history.commit(plan);
}
