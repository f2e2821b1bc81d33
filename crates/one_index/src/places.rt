ghost use Rattle.std.specs.Prelude.{◌≡◌, ◌<◌, Some, AllPairs, Contains, IfSome, IfNone, slice_get};

use lore_base::Oid;

// The place of the object among these, which ascend; None where it isn't among them. A binary
// search.
pub(crate) fn place_of(objects: &[Oid], oid: Oid) -> Option<usize>
    requires { AllPairs (λ a b. a.0 < b.0) objects.now }
    ensures found { IfSome result (λ place. slice_get objects.now place ≡ Some oid) }
    ensures none { IfNone result (¬ Contains objects.now oid) }
{
    match objects.binary_search(&oid) {
        Ok(place) => Some(place),
        Err(_) => None,
    }
}
