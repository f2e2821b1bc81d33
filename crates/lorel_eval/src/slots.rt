ghost use Rattle.std.specs.Prelude.{◌≡◌, Some, true, slice_get, IsTrue};

use index_traits::Row;
use lore_base::Oid;
use lore_base::limits::RANGES;

const LAST_SLOT: u32 = RANGES as u32 - 1;

/// The object in the slot; None where there are not so many.
pub fn in_slot(row: &Row, slot: u32) -> Option<Oid>
    ensures { result ≡ slice_get row.now slot }
{
    let oid = row.get(slot.min(LAST_SLOT));
    if slot <= LAST_SLOT { Some(oid) } else { None }
}

/// Whether the slot is marked; no slot behind the last one is.
pub fn is_marked(known: &[bool; RANGES], slot: u32) -> bool
    ensures { IsTrue result → slice_get known.now slot ≡ Some true }
{
    match known.get(slot as usize) {
        Some(mark) => *mark,
        None => false,
    }
}
