ghost use Rattle.std.specs.Prelude.{◌≡◌, ◌↔◌, true, Contains, IsTrue, IfSome};
ghost use Rattle.member_clues.specs.Clues.{IsGivenBy, IsStartGiven, IsEndGiven};

use crate::clues::{Clue, Comparison, End, Given};
use crate::sides::is_probed;
use index_traits::Values;
use lore_base::limits::RANGES;
use lorel_bound::BoundStart;
use lorel_eval::is_marked;

/// Where more objects are at the end of a clue, those of the slot are tested one by one: the way
/// back from so many may cost more.
pub const MOST_ENDS: usize = 2_048;

/// The clue of the slot that compares with a value which the fewest objects have, of several the
/// first. None where a slot is known, where no clue of the slot compares with a value, and where at
/// least `MOST_ENDS` objects have each.
pub fn clue_by_value<'c, 'a, V: Values>(
    values: &V,
    clues: &'c [Clue<'a>],
    known: &[bool; RANGES],
    slot: u32,
) -> Option<&'c Clue<'a>>
    ensures member { IfSome result (λ clue. Contains clues.now clue.now) }
    ensures slot { IfSome result (λ clue. clue.now.slot ≡ slot) }
    ensures given { IfSome result (λ clue. IsEndGiven known.now clue.now.end) }
{
    if knows_some(known) {
        return None;
    }
    let Some(clue) = clues.get(place_of_fewest(values, clues, slot)) else {
        return None;
    };
    if clue.slot != slot {
        return None;
    }
    if !is_end_given(&clue.end, known) {
        return None;
    }
    Some(clue)
}

/// Whether the clue is one to ask for the slot: its end is found from known slots, or, where none
/// is known, from a named object. What is found from that one alone is not asked for each row.
pub fn is_asked(clue: &Clue<'_>, known: &[bool; RANGES], slot: u32) -> bool
    ensures slot { IsTrue result → clue.now.slot ≡ slot }
    ensures given { IsTrue result → IsEndGiven known.now clue.now.end }
{
    if clue.slot != slot {
        return false;
    }
    if !is_in_turn(&clue.end, known) {
        return false;
    }
    is_end_given(&clue.end, known)
}

/// Whether some slot is known.
pub fn knows_some(known: &[bool; RANGES]) -> bool
    ensures { IsTrue result ↔ Contains known.now true }
{
    known.as_slice().contains(&true)
}

// Whether the end starts at a slot, or at a name where no slot is known.
fn is_in_turn(end: &End<'_>, known: &[bool; RANGES]) -> bool {
    match start_of(end) {
        Some(BoundStart::Named(_)) => !knows_some(known),
        Some(_) => true,
        None => false,
    }
}

// Where the path starts that leads to what is at the end; None where that is a value.
fn start_of(end: &End<'_>) -> Option<BoundStart> {
    match end {
        End::Compared(comparison) => start_of_given(&comparison.given),
        End::Met(meeting) => Some(meeting.start),
    }
}

fn start_of_given(given: &Given<'_>) -> Option<BoundStart> {
    match given {
        Given::Atom(_) => None,
        Given::At { start, .. } => Some(*start),
    }
}

// Whether the end depends on known slots alone.
fn is_end_given(end: &End<'_>, known: &[bool; RANGES]) -> bool
    ensures { IsTrue result → IsEndGiven known.now end.now }
{
    match end {
        End::Compared(comparison) => is_given(&comparison.given, known),
        End::Met(meeting) => is_start_given(meeting.start, known),
    }
}

// Whether what is given depends on known slots alone.
fn is_given(given: &Given<'_>, known: &[bool; RANGES]) -> bool
    ensures { IsTrue result → IsGivenBy known.now given.now }
{
    match given {
        Given::Atom(_) => true,
        Given::At { start, .. } => is_start_given(*start, known),
    }
}

fn is_start_given(start: BoundStart, known: &[bool; RANGES]) -> bool
    ensures { IsTrue result → IsStartGiven known.now start }
{
    match start {
        BoundStart::Slot(slot) => is_marked(known, slot),
        BoundStart::Named(_) => true,
        BoundStart::Quantified(_) => false,
    }
}

// The place of the clue that compares with a value which the fewest objects have; a place behind
// them where none is below the limit.
fn place_of_fewest<V: Values>(values: &V, clues: &[Clue<'_>], slot: u32) -> usize {
    let mut best = clues.len();
    let mut fewest = MOST_ENDS;
    'clues: for place in 0..clues.len() {
        let clue = &clues[place];
        if clue.slot == slot {
            let count = count_of(values, &clue.end);
            if count < fewest {
                fewest = count;
                best = place;
            }
        }
    }
    best
}

// How many objects have the value that is compared with; the limit where none is.
fn count_of<V: Values>(values: &V, end: &End<'_>) -> usize {
    match end {
        End::Compared(comparison) => count_of_compared(values, comparison),
        End::Met(_) => MOST_ENDS,
    }
}

fn count_of_compared<V: Values>(values: &V, comparison: &Comparison<'_>) -> usize {
    let Given::Atom(value) = &comparison.given else {
        return MOST_ENDS;
    };
    let Some(label) = comparison.label else {
        return 0;
    };
    if value.is_complex() {
        return MOST_ENDS;
    }
    if !is_probed(comparison.op) {
        return MOST_ENDS;
    }
    values.probe_count(label, comparison.op, value) as usize
}
