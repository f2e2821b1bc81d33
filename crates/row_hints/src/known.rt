ghost use Rattle.std.specs.Prelude.{◌≡◌, ◌⊎◌, ℕ, true, Some, slice_get};

use lore_base::limits::RANGES;

/// Marks the slot, if there is one.
pub fn mark(known: &mut [bool; RANGES], slot: Option<u32>)
    ensures { (own : ℕ) → slice_get known.new own ≡ Some true
        → (slice_get known.old own ≡ Some true) ⊎ (slot ≡ Some own) }
{
    let Some(slot) = slot else {
        return;
    };
    let place = slot as usize;
    if place >= RANGES {
        return;
    }
    known[place] = true;
}

// The known slots and one more.
pub(crate) fn known_with(known: &[bool; RANGES], slot: u32) -> [bool; RANGES]
    ensures { (own : ℕ) → slice_get result own ≡ Some true
        → (slice_get known.now own ≡ Some true) ⊎ (Some slot ≡ Some own) }
{
    let mut more = *known;
    mark(&mut more, Some(slot));
    more
}

// Whether some slot is known.
pub(crate) fn knows_some(known: &[bool; RANGES]) -> bool {
    known.as_slice().contains(&true)
}
