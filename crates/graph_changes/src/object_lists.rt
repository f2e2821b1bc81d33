ghost use Rattle.std.specs.Prelude.{◌≡◌, map, Some, Contains, IfSome, IfNone};
ghost use Rattle.std.specs.Option.{option_copied};
ghost use Rattle.graph_changes.specs.Types.{Value as TheValue};
ghost use Rattle.lore_base.specs.Databases.{AreAscendingObjects, IsLive};
ghost use Rattle.edge_lists.specs.Objects as lists;
ghost use Rattle.edge_lists.specs.Objects.{object_of};

use edge_lists::{ObjectRecord, place_of};
use lore_base::{Oid, Value};

/// The value of the object; None exactly where it isn't there. Takes no memory.
pub fn value_of(objects: &[ObjectRecord], oid: Oid) -> Option<&Value>
    requires { lists.AreAscendingObjects objects.now }
    ensures found { IfSome result
        (λ value. Contains (map object_of objects.now) (oid, value.now)) }
    ensures none { IfNone result (¬ IsLive (map object_of objects.now) oid) }
    ensures only { (value : TheValue) → Contains (map object_of objects.now) (oid, value)
        → option_copied result ≡ Some value }
{
    match place_of(objects, oid) {
        Some(place) => Some(&objects[place].value),
        None => None,
    }
}

/// The value of the object among ascending objects; None exactly where it isn't there. Takes no
/// memory. It is looked for first where it stands while numbers have no gap, and then by binary
/// search.
pub fn value_in(objects: &[(Oid, Value)], oid: Oid) -> Option<&Value>
    requires { AreAscendingObjects objects.now }
    ensures found { IfSome result (λ value. Contains objects.now (oid, value.now)) }
    ensures none { IfNone result (¬ IsLive objects.now oid) }
    ensures only { (value : TheValue) → Contains objects.now (oid, value)
        → option_copied result ≡ Some value }
{
    if let Some(value) = value_at(objects, likely_place(objects, oid), oid) {
        return Some(value);
    }
    match objects.binary_search_by_key(&oid, |object| object.0) {
        Ok(place) => Some(&objects[place].1),
        Err(_) => None,
    }
}

// As far behind the first object as the number is above that one's.
fn likely_place(objects: &[(Oid, Value)], oid: Oid) -> usize {
    match objects.first() {
        Some(first) => oid.0.saturating_sub(first.0.0) as usize,
        None => 0,
    }
}

// The object's value, where the object stands at this place.
fn value_at(objects: &[(Oid, Value)], place: usize, oid: Oid) -> Option<&Value>
    ensures { IfSome result (λ value. Contains objects.now (oid, value.now)) }
{
    let object = objects.get(place)?;
    if object.0 == oid {
        Some(&object.1)
    } else {
        None
    }
}
