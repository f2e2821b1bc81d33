ghost use Rattle.std.specs.Prelude.{◌≡◌, true};
ghost use Rattle.graph_changes.specs.Left.{AreAscendingOids, is_among};

use lore_base::Oid;

/// Whether the object is one of the dead, which ascend. Takes no memory. It is looked for first where
/// it stands while their numbers have no gap, as where a whole load vanishes, and then by binary
/// search.
pub fn is_dead(dead: &[Oid], oid: Oid) -> bool
    requires { AreAscendingOids dead.now }
    ensures { result ≡ is_among dead.now oid }
{
    if stands_at(dead, likely_place(dead, oid), oid) {
        return true;
    }
    match dead.binary_search(&oid) {
        Ok(_) => true,
        Err(_) => false,
    }
}

// As far behind the first as the number is above that one.
fn likely_place(oids: &[Oid], oid: Oid) -> usize {
    match oids.first() {
        Some(first) => oid.0.saturating_sub(first.0) as usize,
        None => 0,
    }
}

// Whether the object stands at this place.
fn stands_at(oids: &[Oid], place: usize, oid: Oid) -> bool
    ensures { result ≡ true → is_among oids.now oid ≡ true }
{
    match oids.get(place) {
        Some(other) => *other == oid,
        None => false,
    }
}
