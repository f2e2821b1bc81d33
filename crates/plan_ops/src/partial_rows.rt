ghost use Rattle.std.specs.Prelude.{◌≡◌, ℕ, ◌+◌, ◌<◌, ◌≤◌, [], ◌∷◌, ◌++◌, length, map, reverse};
ghost use Rattle.std.specs.Prelude.{vec_len};
ghost use Rattle.std.specs.Prelude.{slice_set, vec_capacity, OnOk, OnErr};
ghost use Rattle.plan_ops.specs.Types.{RANGES};
ghost use Rattle.plan_ops.specs.inside.Offers.{Fill, One, Keep, Reject};
ghost use Rattle.plan_ops.specs.inside.Offers.{FillsSlot, IsReplaced, partial_at};

use crate::offers::Offer;
use index_traits::Row;
use lore_base::{NoMemory, Oid};

/// A row whose slots are filled up to a step of the plan, which is to be taken next.
#[derive(Drop)]
pub struct PartialRow {
    pub(crate) step: usize,
    pub(crate) row: Row,
}

/// Replaces the last partial row by what a step makes of it, each before the step with this
/// number, so that the rows that the offer gives first are the last. Where memory is refused all
/// stays.
pub(crate) fn replace_last(
    partials: &mut Vec<PartialRow>,
    next: usize,
    offer: Offer<'_>,
) -> Result<(), NoMemory>
    requires some { 0 < vec_len partials.old }
    requires slot { FillsSlot offer }
    ensures ok { OnOk result (IsReplaced next offer.entry partials.old.items partials.new.items) }
    ensures err { OnErr result (partials.new.items ≡ partials.old.items) }
{
    match offer {
        Offer::Fill { slot, oids } => fill_all(partials, next, slot, oids.as_slice()),
        Offer::Lend { slot, oids } => fill_all(partials, next, slot, oids.as_slice()),
        Offer::One { slot, oid } => Ok(fill_last(partials, next, slot, oid)),
        Offer::Keep => Ok(keep_last(partials, next)),
        Offer::Reject => Ok(drop_last(partials)),
    }
}

// Replaces the last partial row by the row with each of the objects in the slot. Where memory is
// refused all stays.
fn fill_all(
    partials: &mut Vec<PartialRow>,
    next: usize,
    slot: u32,
    oids: &[Oid],
) -> Result<(), NoMemory>
    requires some { 0 < vec_len partials.old }
    requires slot { slot < RANGES }
    ensures ok { OnOk result (IsReplaced next (Fill slot oids.now) partials.old.items
        partials.new.items) }
    ensures err { OnErr result (partials.new.items ≡ partials.old.items) }
{
    partials.reserve(oids.len())?;
    let Some(PartialRow { row, .. }) = partials.pop() else {
        unreachable!();
    };
    push_filled(partials, next, &row, slot, oids);
    Ok(())
}

// Puts the object into the slot of the last partial row, in place.
fn fill_last(partials: &mut Vec<PartialRow>, next: usize, slot: u32, oid: Oid)
    requires some { 0 < vec_len partials.old }
    requires slot { slot < RANGES }
    ensures { IsReplaced next (One slot oid) partials.old.items partials.new.items }
{
    let Some(last) = partials.last_mut() else {
        unreachable!();
    };
    last.step = next;
    last.row.set(slot, oid);
}

// Leaves the row of the last partial row as it is.
fn keep_last(partials: &mut Vec<PartialRow>, next: usize)
    requires { 0 < vec_len partials.old }
    ensures { IsReplaced next Keep partials.old.items partials.new.items }
{
    let Some(last) = partials.last_mut() else {
        unreachable!();
    };
    last.step = next;
}

// Takes the last partial row away.
fn drop_last(partials: &mut Vec<PartialRow>)
    requires { 0 < vec_len partials.old }
    ensures { (next : ℕ) → IsReplaced next Reject partials.old.items partials.new.items }
{
    let Some(_) = partials.pop() else {
        unreachable!();
    };
}

// Puts the row behind the others. There is room.
fn push(partials: &mut Vec<PartialRow>, next: usize, row: Row)
    requires { vec_len partials.old < vec_capacity partials.old }
    ensures items { partials.new.items ≡ partials.old.items ++ partial_at next row ∷ [] }
    ensures len { vec_len partials.new ≡ vec_len partials.old + 1 }
    ensures capacity { vec_capacity partials.old ≤ vec_capacity partials.new }
{
    let Ok(()) = partials.push(PartialRow { step: next, row }) else {
        unreachable!();
    };
}

// Puts the row with each of the objects in the slot behind the others, that with the first object
// last. There is room.
fn push_filled(partials: &mut Vec<PartialRow>, next: usize, row: &Row, slot: u32, oids: &[Oid])
    requires room { vec_len partials.old + length oids.now ≤ vec_capacity partials.old }
    requires slot { slot < RANGES }
    ensures { partials.new.items ≡ partials.old.items
        ++ map (partial_at next) (map (slice_set row.now slot) (reverse oids.now)) }
{
    let mut left = oids.len();
    'oids: while left > 0 {
        left -= 1;
        let mut filled = row.copy();
        filled.set(slot, oids[left]);
        push(partials, next, filled);
    }
}
