ghost use Rattle.std.specs.Prelude.{◌≡◌, ◌≢◌, ◌↔◌, Some, Contains, IsTrue, IfSome};
ghost use Rattle.std.specs.Option.{option_copied};
ghost use Rattle.lore_base.specs.Databases.{IsLive};
ghost use Rattle.value_changes.specs.Types.{Value as TheValue, Complex};
ghost use Rattle.value_changes.specs.Reads.{HasAtom, IsOldValued};

use index_traits::ValueOf;
use lore_base::{Oid, Value};

// Whether the object was live and has an atomic value before or afterwards. No edge entered another
// before, or no entry is of it.
pub(crate) fn is_old_valued<V: ValueOf, W: ValueOf>(before: &V, after: &W, oid: Oid) -> bool
    ensures { IsTrue result ↔ IsOldValued (V.objects before.now) (W.objects after.now) oid }
{
    if !is_live(before, oid) {
        return false;
    }
    if has_atom(before, oid) {
        return true;
    }
    has_atom(after, oid)
}

// Whether the object is live.
fn is_live<V: ValueOf>(values: &V, oid: Oid) -> bool
    ensures { IsTrue result ↔ IsLive (V.objects values.now) oid }
{
    match values.value_of(oid) {
        Some(_) => true,
        None => false,
    }
}

// Whether the object has an atomic value.
pub(crate) fn has_atom<V: ValueOf>(values: &V, oid: Oid) -> bool
    ensures { IsTrue result ↔ HasAtom (V.objects values.now) oid }
{
    match atomic_value(values, oid) {
        Some(_) => true,
        None => false,
    }
}

// The object's value, where it has one that is atomic.
pub(crate) fn atomic_value<V: ValueOf>(values: &V, oid: Oid) -> Option<&Value>
    ensures found { IfSome result (λ value. Contains (V.objects values.now) (oid, value.now)) }
    ensures atomic { IfSome result (λ value. value.now ≢ Complex) }
    ensures only { (value : TheValue) → Contains (V.objects values.now) (oid, value)
        → value ≢ Complex → option_copied result ≡ Some value }
{
    let value = values.value_of(oid)?;
    match value {
        Value::Complex => None,
        _ => Some(value),
    }
}
