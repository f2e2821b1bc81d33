use lore_base::NoMemory;
use lore_base::limits::RANGES;
use std::alloc::Global;

// So many tests are made before it is told whether they are worth it.
const FIRST: usize = 64;

// They are where at least one of so many rules a row out: each row that is left is tested once
// more in the end.
const ENOUGH: usize = 2;

// Where they aren't, so many rows are left untested before some are tested again.
const PAUSE: usize = 4_096;

/// How many rows were tested with an object in a slot, how many of these were ruled out, and how
/// many were left untested since the tests weren't worth it.
#[derive(Clone, Copy)]
pub struct Tally {
    tested: usize,
    out: usize,
    left: usize,
}

// No row was tested.
const NONE: Tally = Tally {
    tested: 0,
    out: 0,
    left: 0,
};

// Nothing was tested for any slot.
pub(crate) fn no_tallies(alloc: Global) -> Result<Vec<Tally>, NoMemory> {
    let mut tallies = Vec::with_capacity(alloc, RANGES)?;
    'slots: for _ in 0..RANGES {
        tallies.push(NONE)?;
    }
    Ok(tallies)
}

// Whether to test rows with objects in the slot before further slots are filled. It decides what
/// is done and not what is right: each row is tested in the end.
pub(crate) fn is_worth(tallies: &[Tally], slot: u32) -> bool {
    match tallies.get(slot as usize) {
        Some(tally) => tally.tested < FIRST || tally.out.saturating_mul(ENOUGH) >= tally.tested,
        None => false,
    }
}

// Notes that a row was tested with an object in the slot, and whether it was ruled out.
pub(crate) fn note(tallies: &mut Vec<Tally>, slot: u32, is_out: bool) {
    let place = slot as usize;
    if place >= tallies.len() {
        return;
    }
    let tally = &mut tallies[place];
    tally.tested = tally.tested.saturating_add(1);
    if is_out {
        tally.out = tally.out.saturating_add(1);
    }
}

// Notes that so many rows were left untested. Behind enough of them the tally begins anew: objects
/// may come that the tests rule out.
pub(crate) fn note_left(tallies: &mut Vec<Tally>, slot: u32, count: usize) {
    let place = slot as usize;
    if place >= tallies.len() {
        return;
    }
    let left = tallies[place].left.saturating_add(count);
    if left < PAUSE {
        tallies[place].left = left;
    } else {
        tallies[place] = NONE;
    }
}
