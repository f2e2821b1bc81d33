ghost use Rattle.std.specs.Prelude.{All, IfOk};
ghost use Rattle.row_hints.specs.Told.{AreTold, IsUnasked};

use crate::hints::Hints;
use crate::tallies::{Tally, is_worth, no_tallies, note_left};
use crate::told::{Told, ask_once, none_asked, told_of};
use lore_base::{NoMemory, Steps};
use std::alloc::Global;
use std::sync::ledger::Ledger;

/// Where so many objects stand for a slot, it is asked which of them fit the row. It may take a
/// walk back from as many to tell.
pub const MANY: usize = 64;

/// What was learned of each slot: what is told of it, whatever stands in the others, and how tests
/// with objects in it went.
#[derive(Drop)]
pub struct Learned {
    pub told: Vec<Told>,
    pub tallies: Vec<Tally>,
}

impl Learned {
    /// Nothing was asked, and nothing tested.
    pub fn new(alloc: Global) -> Result<Learned, NoMemory>
        ensures { IfOk result (λ learned. All IsUnasked learned.told.items) }
    {
        let told = none_asked(alloc)?;
        let tallies = no_tallies(alloc)?;
        Ok(Learned { told, tallies })
    }
}

/// Asks which objects fit the slot, once enough stood for it; and tells whether of so many now all
/// are left without a look at the row: they are few, nothing is told of the slot, and tests with
/// objects in it ruled out few.
pub fn leaves_all<S: Hints, L: Ledger>(
    alloc: Global,
    sources: &S,
    slot: u32,
    count: usize,
    learned: &mut Learned,
    steps: &mut Steps<L>,
) -> Result<bool, NoMemory>
    requires { AreTold (S.hints sources.now) learned.old.told.items }
    ensures { AreTold (S.hints sources.now) learned.new.told.items }
{
    ask_once(alloc, sources, &mut learned.told, slot, count, steps)?;
    Ok(tells_nothing(learned.told.as_slice(), &mut learned.tallies, slot, count))
}

// Whether nothing of these is told. What is left untested is noted.
fn tells_nothing(told: &[Told], tallies: &mut Vec<Tally>, slot: u32, count: usize) -> bool {
    if count >= MANY {
        return false;
    }
    if told_of(told, slot).is_some() {
        return false;
    }
    if is_worth(tallies.as_slice(), slot) {
        return false;
    }
    note_left(tallies, slot, count);
    true
}
