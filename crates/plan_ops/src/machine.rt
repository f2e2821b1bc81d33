ghost use Rattle.std.specs.Prelude.{◌≡◌, ◌<◌, length, map, drop, vec_len, All};
ghost use Rattle.std.specs.Prelude.{IfOk, IfSome, OnOk, OnErr};
ghost use Rattle.row_hints.specs.Told.{AreTold};
ghost use Rattle.plan_ops.specs.Types.{RANGES as THE_RANGES};
ghost use Rattle.plan_ops.specs.Rows.{IsToCome, AreSame, AnswersNext, AreQuiet, ReadNothing};
ghost use Rattle.plan_ops.specs.Rows.{work_left};
ghost use Rattle.plan_ops.specs.inside.Keeping.{AreKeptBy};
ghost use Rattle.plan_ops.specs.inside.Machines.{AreHinted, IsMachine, IsPopped};
ghost use Rattle.plan_ops.specs.inside.Offers.{IsOfferAt};
ghost use Rattle.plan_laws.specs.Orders.{AreStepsInOrder, CanBeReady};
ghost use Rattle.plan_ops.specs.inside.Ready.{HasFound, ready_tree};

use crate::kept::Kept;
use crate::narrowing::{Turn, narrowed_offer};
use crate::offers::{Offer, Offers};
use crate::partial_rows::{PartialRow, replace_last};
use crate::ready_steps::ReadyStep;
use index_traits::Row;
use lore_base::{NoMemory, Steps};
use row_hints::{Hints, Learned};
use std::alloc::Global;
use std::sync::ledger::Ledger;

/// A row that is to come of these partial ones by the steps; None exactly where none is. Where
/// memory is refused the same rows are to come.
pub(crate) fn next_row<S: Offers + Hints, L: Ledger>(
    alloc: Global,
    sources: &S,
    ready: &[ReadyStep<'_>],
    kept: &mut Vec<Kept>,
    learned: &mut Learned,
    partials: &mut Vec<PartialRow>,
    steps: &mut Steps<L>,
) -> Result<Option<Row>, NoMemory>
    requires machine { IsMachine (S.over sources.now) (map ready_tree ready.now) partials.old.items }
    requires found { let over = S.over sources.now in
        All (HasFound over.labels over.reaches) ready.now }
    requires kept { AreKeptBy (S.over sources.now) ready.now kept.old.items }
    requires told { AreTold (S.hints sources.now) learned.old.told.items }
    requires hinted { AreHinted (S.over sources.now) (S.hints sources.now)
        (map ready_tree ready.now) partials.old.items }
    ensures machine { IsMachine (S.over sources.now) (map ready_tree ready.now) partials.new.items }
    ensures kept { AreKeptBy (S.over sources.now) ready.now kept.new.items }
    ensures told { AreTold (S.hints sources.now) learned.new.told.items }
    ensures hinted { AreHinted (S.over sources.now) (S.hints sources.now)
        (map ready_tree ready.now) partials.new.items }
    ensures row { let plan = map ready_tree ready.now in
        IfOk result (AnswersNext (IsToCome (S.over sources.now) plan partials.old.items)
        (IsToCome (S.over sources.now) plan partials.new.items)) }
    ensures fewer { let count = length (map ready_tree ready.now) in
        IfOk result (λ row. IfSome row (λ _.
        work_left count partials.new.items < work_left count partials.old.items)) }
    ensures err { let plan = map ready_tree ready.now in
        OnErr result (AreSame (IsToCome (S.over sources.now) plan partials.old.items)
        (IsToCome (S.over sources.now) plan partials.new.items)) }
    ensures quiet { let plan = map ready_tree ready.now in
        ReadNothing (S.over sources.now) plan partials.old.items
        → OnOk result (steps.new ≡ steps.old)
        × ReadNothing (S.over sources.now) plan partials.new.items }
{
    'partials: while let Some(last) = partials.as_slice().last() {
        let at = last.step;
        if at >= ready.len() {
            return Ok(Some(take_last(partials)));
        }
        let found = taken(alloc, sources, ready, at, &last.row, kept, steps)?;
        let turn = Turn {
            sources,
            ready,
            at,
            row: &last.row,
        };
        let offer = narrowed_offer(alloc, &turn, found, learned, steps)?;
        replace_last(partials, at + 1, offer)?;
    }
    Ok(None)
}

// What the step at this place makes of the row.
fn taken<'r, S: Offers, L: Ledger>(
    alloc: Global,
    sources: &S,
    ready: &'r [ReadyStep<'_>],
    at: usize,
    row: &Row,
    kept: &mut Vec<Kept>,
    steps: &mut Steps<L>,
) -> Result<Offer<'r>, NoMemory>
    requires at { at < length ready.now }
    requires room { at < length kept.old.items }
    requires eight { length row.now ≡ THE_RANGES }
    requires in_order { AreStepsInOrder (map ready_tree ready.now) }
    requires can { All CanBeReady (map ready_tree ready.now) }
    requires found { let over = S.over sources.now in
        All (HasFound over.labels over.reaches) ready.now }
    requires kept { AreKeptBy (S.over sources.now) ready.now kept.old.items }
    ensures kept { AreKeptBy (S.over sources.now) ready.now kept.new.items }
    ensures rows { IfOk result (IsOfferAt (S.over sources.now) (map ready_tree ready.now) at
        row.now) }
    ensures quiet { AreQuiet (S.over sources.now) (drop at (map ready_tree ready.now))
        → OnOk result (steps.new ≡ steps.old) }
{
    sources.offer(alloc, &ready[at], row, &mut kept[at], steps)
}

// Takes the last partial row away, and gives its row.
fn take_last(partials: &mut Vec<PartialRow>) -> Row
    requires { 0 < vec_len partials.old }
    ensures { IsPopped partials.old.items partials.new.items result }
{
    let Some(PartialRow { row, .. }) = partials.pop() else {
        unreachable!();
    };
    row
}
