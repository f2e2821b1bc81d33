ghost use Rattle.std.specs.Prelude.{◌≡◌, ◌<◌, ◌++◌, length, AllPairs, IsTrue, IfOk, IfSome, OnOk};
ghost use Rattle.index_traits.specs.PartRows.{AreAllThatFit};
ghost use Rattle.row_hints.specs.Types.{RANGES as THE_RANGES};
ghost use Rattle.row_hints.specs.Thinned.{FailsWith, AreThinned, kept_of};
ghost use Rattle.row_hints.specs.Told.{AreTold};
ghost use Rattle.row_hints.specs.inside.Items.{item_unless};

use crate::hints::Hints;
use crate::known::{known_with, knows_some};
use crate::learned::{Learned, MANY};
use crate::lists::{common, is_among};
use crate::tallies::{Tally, is_worth, note, note_left};
use crate::told::{Told, told_of};
use index_traits::Row;
use lore_base::limits::RANGES;
use lore_base::{NoMemory, Oid, OidBuf, Steps};
use std::alloc::Global;
use std::sync::ledger::Ledger;

/// The slot that is filled next, of a row in which the objects in the known slots stay.
#[derive(Drop)]
pub struct RowPlace<'p, S> {
    pub sources: &'p S,
    pub known: &'p [bool; RANGES],
    pub slot: u32,
    pub row: &'p Row,
    /// Another slot is filled later: else the whole row is tested next.
    pub goes_on: bool,
}

/// Whether a single object is left out for the slot: by what is told of the slot, whatever stands
/// in the others, or by a test of the row with it.
pub fn is_left_out<S: Hints, L: Ledger>(
    alloc: Global,
    place: &RowPlace<'_, S>,
    oid: Oid,
    learned: &mut Learned,
    steps: &mut Steps<L>,
) -> Result<bool, NoMemory>
    requires slot { place.now.slot < THE_RANGES }
    requires eight { length place.now.row.now ≡ THE_RANGES }
    requires told { AreTold (S.hints place.now.sources.now) learned.old.told.items }
    ensures told { AreTold (S.hints place.now.sources.now) learned.new.told.items }
    ensures out { IfOk result (λ out. IsTrue out → FailsWith (S.hints place.now.sources.now)
        place.now.known.now place.now.slot place.now.row.now oid) }
{
    if is_told_out(place, oid, learned.told.as_slice()) {
        return Ok(true);
    }
    is_out(alloc, place, oid, &mut learned.tallies, steps)
}

// Whether what is told of the slot leaves the object out.
fn is_told_out<S: Hints>(place: &RowPlace<'_, S>, oid: Oid, told: &[Told]) -> bool
    requires { AreTold (S.hints place.now.sources.now) told.now }
    ensures { IsTrue result → FailsWith (S.hints place.now.sources.now) place.now.known.now
        place.now.slot place.now.row.now oid }
{
    let Some(fit) = told_of(told, place.slot) else {
        return false;
    };
    if is_among(fit, oid) {
        return false;
    }
    true
}

/// The objects that are left by what is told of the row, by what is told of the slot, whatever
/// stands in the others, and by tests; None where all are.
pub fn narrowed<S: Hints, L: Ledger>(
    alloc: Global,
    place: &RowPlace<'_, S>,
    oids: &OidBuf,
    learned: &mut Learned,
    steps: &mut Steps<L>,
) -> Result<Option<OidBuf>, NoMemory>
    requires slot { place.now.slot < THE_RANGES }
    requires eight { length place.now.row.now ≡ THE_RANGES }
    requires ascending { AllPairs (λ a b. a.0 < b.0) oids.now }
    requires told { AreTold (S.hints place.now.sources.now) learned.old.told.items }
    ensures told { AreTold (S.hints place.now.sources.now) learned.new.told.items }
    ensures kept { IfOk result (λ kept. AreThinned (FailsWith (S.hints place.now.sources.now)
        place.now.known.now place.now.slot place.now.row.now) oids.now (kept_of kept oids.now)) }
{
    narrowed_by_row(
        alloc,
        place,
        oids,
        learned.told.as_slice(),
        &mut learned.tallies,
        steps,
    )
}

// The same. The row comes first: it tells of few objects, and the slot perhaps of many, which
// would be gone through for each row.
fn narrowed_by_row<S: Hints, L: Ledger>(
    alloc: Global,
    place: &RowPlace<'_, S>,
    oids: &OidBuf,
    told: &[Told],
    tallies: &mut Vec<Tally>,
    steps: &mut Steps<L>,
) -> Result<Option<OidBuf>, NoMemory>
    requires slot { place.now.slot < THE_RANGES }
    requires eight { length place.now.row.now ≡ THE_RANGES }
    requires ascending { AllPairs (λ a b. a.0 < b.0) oids.now }
    requires told { AreTold (S.hints place.now.sources.now) told.now }
    ensures { IfOk result (λ kept. AreThinned (FailsWith (S.hints place.now.sources.now)
        place.now.known.now place.now.slot place.now.row.now) oids.now (kept_of kept oids.now)) }
{
    let most = most_left(told, place.slot, oids.len());
    let Some(fit) = fitting_row(alloc, place, most, steps)? else {
        return narrowed_by_slot(alloc, place, oids, told, tallies, steps);
    };
    let few = common(alloc, oids, &fit)?;
    let fewer = narrowed_by_slot(alloc, place, &few, told, tallies, steps)?;
    Ok(Some(kept_or(fewer, few)))
}

/// The objects that were kept; all of them where none was left out.
pub fn kept_or(kept: Option<OidBuf>, oids: OidBuf) -> OidBuf
    ensures { result ≡ kept_of kept oids }
{
    match kept {
        Some(kept) => kept,
        None => oids,
    }
}

// How many of so many objects may be left by what is told of the slot.
fn most_left(told: &[Told], slot: u32, count: usize) -> usize {
    match told_of(told, slot) {
        Some(fit) => fit.len().min(count),
        None => count,
    }
}

// The objects that are left by what is told of the slot, and then by tests; None where all are.
fn narrowed_by_slot<S: Hints, L: Ledger>(
    alloc: Global,
    place: &RowPlace<'_, S>,
    oids: &OidBuf,
    told: &[Told],
    tallies: &mut Vec<Tally>,
    steps: &mut Steps<L>,
) -> Result<Option<OidBuf>, NoMemory>
    requires slot { place.now.slot < THE_RANGES }
    requires eight { length place.now.row.now ≡ THE_RANGES }
    requires ascending { AllPairs (λ a b. a.0 < b.0) oids.now }
    requires told { AreTold (S.hints place.now.sources.now) told.now }
    ensures { IfOk result (λ kept. AreThinned (FailsWith (S.hints place.now.sources.now)
        place.now.known.now place.now.slot place.now.row.now) oids.now (kept_of kept oids.now)) }
{
    let Some(fit) = told_of(told, place.slot) else {
        return narrowed_by_tests(alloc, place, oids, tallies, steps);
    };
    let few = common(alloc, oids, fit)?;
    let fewer = narrowed_by_tests(alloc, place, &few, tallies, steps)?;
    Ok(Some(kept_or(fewer, few)))
}

// Objects of which a row that passes and has the row's objects in the known slots has one in the
// slot; None where that isn't told, and where it isn't worth to ask for so many objects.
fn fitting_row<S: Hints, L: Ledger>(
    alloc: Global,
    place: &RowPlace<'_, S>,
    count: usize,
    steps: &mut Steps<L>,
) -> Result<Option<OidBuf>, NoMemory>
    ensures { IfOk result (λ found. IfSome found (λ fit. AreAllThatFit
        (S.hints place.now.sources.now) place.now.known.now place.now.slot place.now.row.now
        fit)) }
{
    if count < MANY {
        return Ok(None);
    }
    if !knows_some(place.known) {
        return Ok(None);
    }
    place
        .sources
        .fitting(alloc, place.known, place.slot, place.row, steps)
}

// The objects that are left by tests of the row with each of them in the slot; None where all are,
// where the test of the whole condition is next, and where such tests ruled out few.
fn narrowed_by_tests<S: Hints, L: Ledger>(
    alloc: Global,
    place: &RowPlace<'_, S>,
    oids: &OidBuf,
    tallies: &mut Vec<Tally>,
    steps: &mut Steps<L>,
) -> Result<Option<OidBuf>, NoMemory>
    requires slot { place.now.slot < THE_RANGES }
    requires eight { length place.now.row.now ≡ THE_RANGES }
    requires ascending { AllPairs (λ a b. a.0 < b.0) oids.now }
    ensures { IfOk result (λ kept. AreThinned (FailsWith (S.hints place.now.sources.now)
        place.now.known.now place.now.slot place.now.row.now) oids.now (kept_of kept oids.now)) }
{
    if !place.goes_on {
        return Ok(None);
    }
    if !is_worth(tallies.as_slice(), place.slot) {
        note_left(tallies, place.slot, oids.len());
        return Ok(None);
    }
    let kept = not_ruled_out(alloc, place, oids.as_slice(), tallies, steps)?;
    Ok(Some(kept))
}

// The objects with which in the slot the row isn't ruled out.
fn not_ruled_out<S: Hints, L: Ledger>(
    alloc: Global,
    place: &RowPlace<'_, S>,
    oids: &[Oid],
    tallies: &mut Vec<Tally>,
    steps: &mut Steps<L>,
) -> Result<OidBuf, NoMemory>
    requires slot { place.now.slot < THE_RANGES }
    requires eight { length place.now.row.now ≡ THE_RANGES }
    requires ascending { AllPairs (λ a b. a.0 < b.0) oids.now }
    ensures { IfOk result (AreThinned (FailsWith (S.hints place.now.sources.now)
        place.now.known.now place.now.slot place.now.row.now) oids.now) }
{
    let mut kept = OidBuf::with_capacity(alloc, oids.len())?;
    'oids: for oid in oids {
        let out = is_out(alloc, place, *oid, tallies, steps)?;
        push_unless(&mut kept, out, *oid)?;
    }
    Ok(kept)
}

// Whether the row is ruled out with this object in the slot. It isn't where such tests ruled out
// few.
fn is_out<S: Hints, L: Ledger>(
    alloc: Global,
    place: &RowPlace<'_, S>,
    oid: Oid,
    tallies: &mut Vec<Tally>,
    steps: &mut Steps<L>,
) -> Result<bool, NoMemory>
    requires slot { place.now.slot < THE_RANGES }
    requires eight { length place.now.row.now ≡ THE_RANGES }
    ensures { IfOk result (λ out. IsTrue out → FailsWith (S.hints place.now.sources.now)
        place.now.known.now place.now.slot place.now.row.now oid) }
{
    if !is_worth(tallies.as_slice(), place.slot) {
        note_left(tallies, place.slot, 1);
        return Ok(false);
    }
    let out = is_ruled_out(alloc, place, oid, steps)?;
    note(tallies, place.slot, out);
    Ok(out)
}

// Whether the test rules the row out with this object in the slot.
fn is_ruled_out<S: Hints, L: Ledger>(
    alloc: Global,
    place: &RowPlace<'_, S>,
    oid: Oid,
    steps: &mut Steps<L>,
) -> Result<bool, NoMemory>
    requires slot { place.now.slot < THE_RANGES }
    requires eight { length place.now.row.now ≡ THE_RANGES }
    ensures { IfOk result (λ out. IsTrue out → FailsWith (S.hints place.now.sources.now)
        place.now.known.now place.now.slot place.now.row.now oid) }
{
    let known = known_with(place.known, place.slot);
    let mut filled = place.row.copy();
    filled.set(place.slot, oid);
    place.sources.rules_out(alloc, &known, &filled, steps)
}

// Puts the object behind the others, unless it is out.
fn push_unless(kept: &mut OidBuf, out: bool, oid: Oid) -> Result<(), NoMemory>
    ensures { OnOk result (kept.new ≡ kept.old ++ item_unless out oid) }
{
    if !out {
        kept.push(oid)?;
    }
    Ok(())
}
