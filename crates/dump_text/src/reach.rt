ghost use Rattle.std.specs.Prelude.{◌≡◌, ◌<◌, ◌↔◌, map, All, AllPairs, Contains, IsTrue, IfOk};
ghost use Rattle.std.specs.Bool.{OnTrue};
ghost use Rattle.lore_base.specs.Databases.{AreAscendingEdges, IsLinked, IsReached};
ghost use Rattle.lore_base.specs.TargetSets.{ListsInOrder};
ghost use Rattle.object_search.specs.LowerParents.{IsLed};
ghost use Rattle.dump_text.specs.inside.Noted.{IsNoted};

use lore_base::{Edge, NoMemory, OemText, Oid, OidBuf, Value};
use object_search::{SortedEdges, noted_as_led, reached_from};
use std::alloc::Global;

// How many numbers there may be for each object, from the first one's on, so that they are noted.
const NUMBERS_AN_OBJECT: usize = 4;

// The objects of the names.
fn starts_of(alloc: Global, names: &[(OemText, Oid)]) -> Result<OidBuf, NoMemory>
    ensures { IfOk result (λ starts. starts ≡ map (λ entry. entry.1) names.now) }
{
    let mut starts = OidBuf::with_capacity(alloc, names.len())?;
    'names: for entry in names {
        starts.push(entry.1)?;
    }
    Ok(starts)
}

// The objects that names walk to, in ascending order.
fn named_objects(
    alloc: Global,
    names: &[(OemText, Oid)],
    edges: &[Edge],
) -> Result<OidBuf, NoMemory>
    requires { AreAscendingEdges edges.now }
    ensures { IfOk result (ListsInOrder (IsReached names.now edges.now)) }
{
    let starts = starts_of(alloc, names)?;
    let arcs = SortedEdges::new(edges);
    reached_from(alloc, &arcs, starts.as_slice(), &mut ())
}

// Whether the object is one of the ascending ones, found by binary search.
fn is_among(oids: &[Oid], oid: Oid) -> bool
    requires { AllPairs (λ a b. a.0 < b.0) oids.now }
    ensures { IsTrue result ↔ Contains oids.now oid }
{
    match oids.binary_search(&oid) {
        Ok(_) => true,
        Err(_) => false,
    }
}

// Whether each of the objects is among the ascending ones.
fn are_among(objects: &[(Oid, Value)], oids: &[Oid]) -> bool
    requires { AllPairs (λ a b. a.0 < b.0) oids.now }
    ensures { IsTrue result ↔ All (λ object. Contains oids.now object.0) objects.now }
{
    'objects: for object in objects {
        if !is_among(oids, object.0) {
            return false;
        }
    }
    true
}

// The number of the first object, and how many there are from it to that of the last one. None where
// these are too many for the objects.
fn numbers_of(objects: &[(Oid, Value)]) -> Option<(Oid, usize)> {
    let first = objects.first()?.0;
    let last = objects.last()?.0;
    let span = last.0.saturating_sub(first.0) as usize;
    if span / NUMBERS_AN_OBJECT > objects.len() {
        return None;
    }
    Some((first, span.saturating_add(1)))
}

// Whether the object's number is noted, counted from that of the first one.
fn is_noted(noted: &[bool], first: Oid, oid: Oid) -> bool
    ensures { OnTrue result (IsNoted noted.now first.0 oid.0) }
{
    if oid.0 < first.0 {
        return false;
    }
    let place = (oid.0 - first.0) as usize;
    if place >= noted.len() {
        return false;
    }
    noted[place]
}

// Whether the number of each object is noted.
fn are_noted(noted: &[bool], first: Oid, objects: &[(Oid, Value)]) -> bool
    ensures { OnTrue result (All (λ object. IsNoted noted.now first.0 object.0.0) objects.now) }
{
    'objects: for object in objects {
        if !is_noted(noted, first, object.0) {
            return false;
        }
    }
    true
}

// Whether each object is that of a name, or the child of an edge from a lower number: then names walk
// to each. So it mostly is in what was loaded.
fn are_all_led(
    alloc: Global,
    names: &[(OemText, Oid)],
    objects: &[(Oid, Value)],
    edges: &[Edge],
) -> Result<bool, NoMemory>
    ensures { IfOk result (λ all. OnTrue all
        (All (λ object. IsLed (map (λ entry. entry.1) names.now) edges.now object.0.0)
        objects.now)) }
{
    let Some((first, count)) = numbers_of(objects) else {
        return Ok(false);
    };
    let starts = starts_of(alloc, names)?;
    let noted = noted_as_led(alloc, starts.as_slice(), edges, first, count)?;
    Ok(are_noted(noted.as_slice(), first, objects))
}

// Whether names walk to each of the objects. It is searched for only where no lower numbers tell.
pub(crate) fn are_reached(
    alloc: Global,
    names: &[(OemText, Oid)],
    objects: &[(Oid, Value)],
    edges: &[Edge],
) -> Result<bool, NoMemory>
    requires ascend { AreAscendingEdges edges.now }
    requires linked { All (IsLinked objects.now) edges.now }
    ensures { IfOk result (λ reached. IsTrue reached
        ↔ All (λ object. IsReached names.now edges.now object.0) objects.now) }
{
    if are_all_led(alloc, names, objects, edges)? {
        return Ok(true);
    }
    let reached = named_objects(alloc, names, edges)?;
    Ok(are_among(objects, reached.as_slice()))
}
