ghost use Rattle.std.specs.Prelude.{◌≡◌, ◌<◌, length, map, slice_set, slice_index_or};
ghost use Rattle.value_index.specs.Types.{Oid as TheOid, Value as TheValue};
ghost use Rattle.value_orders.specs.Held.{AscendByObject};
ghost use Rattle.value_index.specs.inside.Marks.{is_complex, marked, marked_by, marked_if};
ghost use Rattle.value_orders.specs.Kinds.{is_of};

use lore_base::{Oid, Value};
use value_orders::{Entry, Kind, is_of, search};

// Gives those objects a complex value that one of the entries names and whose values are of the
// kind.
pub(crate) fn mark_named(objects: &mut Vec<(Oid, Value)>, entries: &[Entry], kind: Kind)
    requires { AscendByObject objects.old.items }
    ensures { objects.new.items ≡ map (marked_by kind entries.now) objects.old.items }
{
    'entries: for entry in entries {
        mark(objects, entry.object, kind);
    }
}

// Gives the object a complex value, if it is one of these and its value is of the kind.
fn mark(objects: &mut Vec<(Oid, Value)>, oid: Oid, kind: Kind)
    requires { AscendByObject objects.old.items }
    ensures { objects.new.items ≡ map (marked kind oid) objects.old.items }
{
    match search(objects.as_slice(), oid) {
        Ok(place) => mark_at(objects.as_mut_slice(), place, kind),
        Err(_) => {}
    }
}

// The same of the object at this place.
fn mark_at(objects: &mut [(Oid, Value)], place: usize, kind: Kind)
    requires { place < length objects.old }
    ensures { (d : TheOid × TheValue) → objects.new ≡ slice_set objects.old place
        (marked_if (is_of kind (slice_index_or objects.old place d).1)
        (slice_index_or objects.old place d)) }
{
    if is_of(kind, &objects[place].1) {
        objects[place].1 = Value::Complex;
    }
}

// Whether the value is complex.
pub(crate) fn is_complex(value: &Value) -> bool
    ensures { result ≡ is_complex value.now }
{
    match value {
        Value::Whole(_) => false,
        Value::Chars(_) => false,
        Value::Flag(_) => false,
        Value::Complex => true,
    }
}
