ghost use Rattle.std.specs.Prelude.{◌≡◌, Some, All, slice_get, IfOk, IfSome};
ghost use Rattle.row_hints.specs.Types.{Fits};
ghost use Rattle.row_hints.specs.Told.{AreTold, IsPut, IsUnasked, told_by};

use crate::hints::Hints;
use index_traits::Row;
use lore_base::limits::RANGES;
use lore_base::{NoMemory, OidBuf, Steps};
use std::alloc::Global;
use std::sync::ledger::Ledger;

// So many objects stand for a slot before the condition is asked which of them fit: it may walk
// back from as many and more to tell.
const ENOUGH: usize = 1_024;

/// What the condition told of a slot, whatever stands in the others.
#[derive(Drop)]
pub enum Told {
    /// It wasn't asked yet. So many objects stood for the slot.
    Unasked { seen: usize },
    /// It can't tell.
    Nothing,
    /// A row that passes has one of these in the slot.
    Fits(OidBuf),
}

/// Nothing was asked of any slot.
pub(crate) fn none_asked(alloc: Global) -> Result<Vec<Told>, NoMemory>
    ensures { IfOk result (λ told. All IsUnasked told.items) }
{
    let mut told = Vec::with_capacity(alloc, RANGES)?;
    'slots: for _ in 0..RANGES {
        told.push(Told::Unasked { seen: 0 })?;
    }
    Ok(told)
}

/// Asks the condition, once enough objects stood for the slot, which fit it.
pub(crate) fn ask_once<S: Hints, L: Ledger>(
    alloc: Global,
    sources: &S,
    told: &mut Vec<Told>,
    slot: u32,
    count: usize,
    steps: &mut Steps<L>,
) -> Result<(), NoMemory>
    requires { AreTold (S.hints sources.now) told.old.items }
    ensures { AreTold (S.hints sources.now) told.new.items }
{
    let Some(seen) = seen_of(told.as_slice(), slot) else {
        return Ok(());
    };
    let seen = seen.saturating_add(count);
    if seen < ENOUGH {
        put(told, slot, Told::Unasked { seen });
        return Ok(());
    }
    let known = [false; RANGES];
    let row = Row::new(alloc);
    let found = sources.fitting(alloc, &known, slot, &row, steps)?;
    put(told, slot, answered(found));
    Ok(())
}

// How many objects stood for the slot, where the condition wasn't asked.
fn seen_of(told: &[Told], slot: u32) -> Option<usize> {
    match told.get(slot as usize) {
        Some(Told::Unasked { seen }) => Some(*seen),
        _ => None,
    }
}

// Puts what is told of the slot in place of what was.
fn put(told: &mut Vec<Told>, slot: u32, one: Told)
    ensures { IsPut slot one told.old.items told.new.items }
{
    let place = slot as usize;
    if place >= told.len() {
        return;
    }
    told[place] = one;
}

// What is told where the condition answered so.
fn answered(found: Option<OidBuf>) -> Told
    ensures { result ≡ told_by found }
{
    match found {
        Some(oids) => Told::Fits(oids),
        None => Told::Nothing,
    }
}

/// The objects of which a row that passes has one in the slot; None where that isn't told.
pub(crate) fn told_of(told: &[Told], slot: u32) -> Option<&OidBuf>
    ensures { IfSome result (λ oids. slice_get told.now slot ≡ Some (Fits oids.now)) }
{
    match told.get(slot as usize) {
        Some(Told::Fits(oids)) => Some(oids),
        _ => None,
    }
}
