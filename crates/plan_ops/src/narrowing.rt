ghost use Rattle.std.specs.Prelude.{◌≡◌, ◌≢◌, ◌<◌, ◌+◌, [], length, map, drop};
ghost use Rattle.std.specs.Prelude.{Contains, IsTrue, IfOk, OnOk};
ghost use Rattle.lorel_bound.specs.Plans.{filter};
ghost use Rattle.row_hints.specs.Thinned.{kept_of};
ghost use Rattle.row_hints.specs.Told.{AreTold};
ghost use Rattle.plan_ops.specs.Types.{RANGES as THE_RANGES};
ghost use Rattle.plan_ops.specs.Rows.{AreQuiet};
ghost use Rattle.plan_ops.specs.inside.Offers.{Fill, One, HasObjects, IsOfferAt, IsKeptAt};
ghost use Rattle.plan_laws.specs.Orders.{AreStepsInOrder};
ghost use Rattle.plan_ops.specs.inside.Ready.{ready_tree};
ghost use Rattle.plan_ops.specs.inside.Narrowing.{AreHintedAt};

use crate::known_slots::{is_filled_next, is_tested_later, slots_before};
use crate::offers::{Offer, Offers};
use crate::ready_steps::ReadyStep;
use index_traits::Row;
use lore_base::{NoMemory, Oid, OidBuf, Steps};
use row_hints::{Hints, Learned, MANY, RowPlace, is_left_out, kept_or, leaves_all, narrowed};
use std::alloc::Global;
use std::sync::ledger::Ledger;

/// A row that a step of the plan is taken for: what steps are taken over, the steps, and the place
/// of this one.
#[derive(Drop)]
pub(crate) struct Turn<'t, 'a, S> {
    pub(crate) sources: &'t S,
    pub(crate) ready: &'t [ReadyStep<'a>],
    pub(crate) at: usize,
    pub(crate) row: &'t Row,
}

/// What the step makes of the row, without rows of which the condition tells that none comes. No
/// step is counted where the steps from this one on read no edge.
pub(crate) fn narrowed_offer<'r, S: Offers + Hints, L: Ledger>(
    alloc: Global,
    turn: &Turn<'_, '_, S>,
    offer: Offer<'r>,
    learned: &mut Learned,
    steps: &mut Steps<L>,
) -> Result<Offer<'r>, NoMemory>
    requires at { turn.now.at < length turn.now.ready.now }
    requires eight { length turn.now.row.now ≡ THE_RANGES }
    requires in_order { AreStepsInOrder (map ready_tree turn.now.ready.now) }
    requires offer { IsOfferAt (S.over turn.now.sources.now) (map ready_tree turn.now.ready.now)
        turn.now.at turn.now.row.now offer }
    requires told { AreTold (S.hints turn.now.sources.now) learned.old.told.items }
    requires hinted { AreHintedAt (S.over turn.now.sources.now) (S.hints turn.now.sources.now)
        (map ready_tree turn.now.ready.now) turn.now.at turn.now.row.now }
    ensures told { AreTold (S.hints turn.now.sources.now) learned.new.told.items }
    ensures rows { IfOk result (IsKeptAt (S.over turn.now.sources.now)
        (map ready_tree turn.now.ready.now) turn.now.at turn.now.row.now) }
    ensures quiet { AreQuiet (S.over turn.now.sources.now)
        (drop turn.now.at (map ready_tree turn.now.ready.now))
        → OnOk result (steps.new ≡ steps.old) }
{
    match offer {
        Offer::Fill { slot, oids } => {
            let kept = objects_left(alloc, turn, slot, &oids, learned, steps)?;
            let left = kept_or(kept, oids);
            Ok(Offer::Fill { slot, oids: left })
        }
        Offer::Lend { slot, oids } => {
            let kept = objects_left(alloc, turn, slot, oids, learned, steps)?;
            Ok(fill_or_lend(kept, slot, oids))
        }
        Offer::One { slot, oid } => one_left(alloc, turn, slot, oid, learned, steps),
        Offer::Keep => Ok(Offer::Keep),
        Offer::Reject => Ok(Offer::Reject),
    }
}

// The objects that were kept; those that the step lends where none was left out.
fn fill_or_lend<'r>(kept: Option<OidBuf>, slot: u32, oids: &'r OidBuf) -> Offer<'r>
    ensures { HasObjects result slot (kept_of kept oids.now) }
{
    match kept {
        Some(kept) => Offer::Fill { slot, oids: kept },
        None => Offer::Lend { slot, oids },
    }
}

// The object where it is left for the slot of the step.
fn one_left<'r, S: Offers + Hints, L: Ledger>(
    alloc: Global,
    turn: &Turn<'_, '_, S>,
    slot: u32,
    oid: Oid,
    learned: &mut Learned,
    steps: &mut Steps<L>,
) -> Result<Offer<'r>, NoMemory>
    requires at { turn.now.at < length turn.now.ready.now }
    requires eight { length turn.now.row.now ≡ THE_RANGES }
    requires in_order { AreStepsInOrder (map ready_tree turn.now.ready.now) }
    requires offer { IsOfferAt (S.over turn.now.sources.now) (map ready_tree turn.now.ready.now)
        turn.now.at turn.now.row.now (One slot oid) }
    requires told { AreTold (S.hints turn.now.sources.now) learned.old.told.items }
    requires hinted { AreHintedAt (S.over turn.now.sources.now) (S.hints turn.now.sources.now)
        (map ready_tree turn.now.ready.now) turn.now.at turn.now.row.now }
    ensures told { AreTold (S.hints turn.now.sources.now) learned.new.told.items }
    ensures rows { IfOk result (IsKeptAt (S.over turn.now.sources.now)
        (map ready_tree turn.now.ready.now) turn.now.at turn.now.row.now) }
    ensures quiet { AreQuiet (S.over turn.now.sources.now)
        (drop turn.now.at (map ready_tree turn.now.ready.now))
        → OnOk result (steps.new ≡ steps.old) }
{
    if !is_tried_of_few(turn.ready, turn.at) {
        return Ok(Offer::One { slot, oid });
    }
    let all = leaves_all(alloc, turn.sources, slot, 1, learned, steps)?;
    if all {
        return Ok(Offer::One { slot, oid });
    }
    let known = slots_before(turn.ready, turn.at);
    let place = RowPlace {
        sources: turn.sources,
        known: &known,
        slot,
        row: turn.row,
        goes_on: true,
    };
    let out = is_left_out(alloc, &place, oid, learned, steps)?;
    Ok(Offer::one_unless(out, slot, oid))
}

// The objects that are left for the slot of the step; None where all are.
fn objects_left<S: Offers + Hints, L: Ledger>(
    alloc: Global,
    turn: &Turn<'_, '_, S>,
    slot: u32,
    oids: &OidBuf,
    learned: &mut Learned,
    steps: &mut Steps<L>,
) -> Result<Option<OidBuf>, NoMemory>
    requires at { turn.now.at < length turn.now.ready.now }
    requires eight { length turn.now.row.now ≡ THE_RANGES }
    requires in_order { AreStepsInOrder (map ready_tree turn.now.ready.now) }
    requires offer { IsOfferAt (S.over turn.now.sources.now) (map ready_tree turn.now.ready.now)
        turn.now.at turn.now.row.now (Fill slot oids.now) }
    requires told { AreTold (S.hints turn.now.sources.now) learned.old.told.items }
    requires hinted { AreHintedAt (S.over turn.now.sources.now) (S.hints turn.now.sources.now)
        (map ready_tree turn.now.ready.now) turn.now.at turn.now.row.now }
    ensures told { AreTold (S.hints turn.now.sources.now) learned.new.told.items }
    ensures rows { IfOk result (λ kept. IsKeptAt (S.over turn.now.sources.now)
        (map ready_tree turn.now.ready.now) turn.now.at turn.now.row.now
        (Fill slot (kept_of kept oids.now))) }
    ensures quiet { AreQuiet (S.over turn.now.sources.now)
        (drop turn.now.at (map ready_tree turn.now.ready.now))
        → OnOk result (steps.new ≡ steps.old) }
{
    if !is_tried(turn.ready, turn.at, oids) {
        return Ok(None);
    }
    let all = leaves_all(alloc, turn.sources, slot, oids.len(), learned, steps)?;
    if all {
        return Ok(None);
    }
    let known = slots_before(turn.ready, turn.at);
    let place = RowPlace {
        sources: turn.sources,
        known: &known,
        slot,
        row: turn.row,
        goes_on: is_filled_next(turn.ready, turn.at),
    };
    narrowed(alloc, &place, oids, learned, steps)
}

// Whether some of these objects may be left out for the slot of the step: the whole condition is
// tested later. Those that a comparison found, or a walk back from them, are few, and meet what
// tells most.
fn is_tried(ready: &[ReadyStep<'_>], at: usize, oids: &OidBuf) -> bool
    requires { at < length ready.now }
    ensures some { IsTrue result → oids.now ≢ [] }
    ensures tested { IsTrue result → Contains (drop (at + 1) (map ready_tree ready.now)) filter }
{
    if oids.is_empty() {
        return false;
    }
    if oids.len() < MANY {
        return is_tried_of_few(ready, at);
    }
    if !ready[at].walks_on() {
        return false;
    }
    is_tested_later(ready, at)
}

// Whether some of a few objects may be left out: further slots are filled before the whole
// condition is tested. Else that test is next.
fn is_tried_of_few(ready: &[ReadyStep<'_>], at: usize) -> bool
    requires { at < length ready.now }
    ensures { IsTrue result → Contains (drop (at + 1) (map ready_tree ready.now)) filter }
{
    if !is_filled_next(ready, at) {
        return false;
    }
    if !ready[at].walks_on() {
        return false;
    }
    is_tested_later(ready, at)
}
