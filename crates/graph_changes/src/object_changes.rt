ghost use Rattle.std.specs.Prelude.{◌≡◌, ◌<◌, ◌≤◌, ◌+◌, [], ◌∷◌, length, map, Contains, IfSome, IfNone};
ghost use Rattle.std.specs.Prelude.{vec_len, vec_capacity};
ghost use Rattle.edge_lists.specs.Objects.{object_of, AreAscendingObjects, IsLive};
ghost use Rattle.lore_base.specs.Databases as Objects;
ghost use Rattle.graph_changes.specs.Puts.{with_objects};
ghost use Rattle.graph_changes.specs.Left.{AreAscendingOids, not_dead};
ghost use Rattle.graph_changes.specs.Given.{ArePutIn, AreDropped};
ghost use Rattle.graph_changes.specs.inside.Gaps.{IsGap};

use crate::dead_oids::is_dead;
use edge_lists::{ObjectRecord, are_below, place_of};
use lore_base::{ObjectList, Oid, Value};

/// Gives objects their values; those that aren't there yet come at their places, without edges. Takes
/// no memory, and cannot fail.
pub fn put_objects(objects: &mut Vec<ObjectRecord>, given: ObjectList)
    requires ascend { AreAscendingObjects objects.old.items }
    requires room { vec_len objects.old + length given ≤ vec_capacity objects.old }
    ensures { ArePutIn given objects.old.items objects.new.items }
{
    'given: for object in given.into_items() {
        let (oid, value) = object;
        put_object(objects, oid, value);
    }
}

// Gives an object its value, or puts it at its place, most often behind all others.
fn put_object(objects: &mut Vec<ObjectRecord>, oid: Oid, value: Value)
    requires ascend { AreAscendingObjects objects.old.items }
    requires room { vec_len objects.old < vec_capacity objects.old }
    ensures put { ArePutIn ((oid, value) ∷ []) objects.old.items objects.new.items }
    ensures len { vec_len objects.new ≤ vec_len objects.old + 1 }
    ensures capacity { vec_capacity objects.new ≡ vec_capacity objects.old }
{
    if are_below(objects.as_slice(), oid) {
        objects.push_reserved(ObjectRecord::alone(oid, value));
        return;
    }
    let Some(place) = gap_of(objects.as_slice(), oid) else {
        set_value(objects.as_mut_slice(), oid, value);
        return;
    };
    let object = ObjectRecord::alone(oid, value);
    let Ok(()) = objects.insert(place, object) else {
        unreachable!();
    };
}

// Gives an object that is there its value.
fn set_value(objects: &mut [ObjectRecord], oid: Oid, value: Value)
    requires ascend { AreAscendingObjects objects.old }
    requires live { IsLive objects.old oid }
    ensures put { ArePutIn ((oid, value) ∷ []) objects.old objects.new }
    ensures len { length objects.new ≡ length objects.old }
{
    if let Some(place) = place_of(objects, oid) {
        objects[place].value = value;
    }
}

// The place before which an object would stand; None where it is there.
fn gap_of(objects: &[ObjectRecord], oid: Oid) -> Option<usize>
    requires { AreAscendingObjects objects.now }
    ensures gap { IfSome result (IsGap objects.now oid) }
    ensures live { IfNone result (IsLive objects.now oid) }
{
    match objects.binary_search_by_key(&oid, |object| object.oid) {
        Ok(_) => None,
        Err(place) => Some(place),
    }
}

/// Takes dead objects, which have no edges, out of the list. Takes no memory, and cannot fail. Where
/// little moves for it, each is taken out by itself. Else each object is looked for among them.
pub fn drop_objects(objects: &mut Vec<ObjectRecord>, dead: &[Oid])
    requires objects { AreAscendingObjects objects.old.items }
    requires dead { AreAscendingOids dead.now }
    ensures { AreDropped dead.now objects.old.items objects.new.items }
{
    if moves_few(objects.as_slice(), dead) {
        drop_each(objects, dead);
    } else {
        objects.retain(|object| !is_dead(dead, object.oid));
    }
}

// Whether no more objects move than there are, if each of the dead is taken out by itself: those
// behind the first of them move up once for each. To move an object costs as much as to test one.
fn moves_few(objects: &[ObjectRecord], dead: &[Oid]) -> bool
    requires { AreAscendingObjects objects.now }
{
    let Some(first) = dead.first() else {
        return true;
    };
    let behind = match place_of(objects, *first) {
        Some(place) => objects.len().saturating_sub(place),
        None => objects.len(),
    };
    dead.len().saturating_mul(behind) <= objects.len()
}

// Takes out each object by itself.
fn drop_each(objects: &mut Vec<ObjectRecord>, dead: &[Oid])
    requires { AreAscendingObjects objects.old.items }
    ensures { AreDropped dead.now objects.old.items objects.new.items }
{
    'dead: for oid in dead {
        drop_object(objects, *oid);
    }
}

// Takes out an object, if it is there.
fn drop_object(objects: &mut Vec<ObjectRecord>, oid: Oid)
    requires { AreAscendingObjects objects.old.items }
    ensures { AreDropped (oid ∷ []) objects.old.items objects.new.items }
{
    if let Some(place) = place_of(objects.as_slice(), oid) {
        let _gone = objects.remove(place);
    }
}

/// How many objects there are once the dead are gone and the given ones are there. Takes no memory.
pub fn count_objects(objects: &[ObjectRecord], dead: &[Oid], given: &[(Oid, Value)]) -> usize
    requires objects { AreAscendingObjects objects.now }
    requires dead { AreAscendingOids dead.now }
    requires given { Objects.AreAscendingObjects given.now }
    ensures { result ≡ length (with_objects (not_dead dead.now (map object_of objects.now)) given.now) }
{
    if objects.is_empty() {
        return given.len();
    }
    let left = count_left(objects, dead);
    let mut count = left;
    'given: for object in given {
        count += count_new(objects, dead, object.0);
    }
    count
}

// How many objects there are once the dead are gone.
fn count_left(objects: &[ObjectRecord], dead: &[Oid]) -> usize
    requires objects { AreAscendingObjects objects.now }
    requires dead { AreAscendingOids dead.now }
    ensures { result ≡ length (not_dead dead.now (map object_of objects.now)) }
{
    let mut count = objects.len();
    'dead: for oid in dead {
        count -= count_live(objects, *oid);
    }
    count
}

// 1 where the object is there, and 0 where it isn't.
fn count_live(objects: &[ObjectRecord], oid: Oid) -> usize
    requires { AreAscendingObjects objects.now }
    ensures live { result ≡ 1 → IsLive objects.now oid }
    ensures none { result ≡ 0 → ¬ IsLive objects.now oid }
    ensures most { result ≤ 1 }
{
    match place_of(objects, oid) {
        Some(_) => 1,
        None => 0,
    }
}

// 1 where the object isn't there once the dead are gone, and 0 where it is.
fn count_new(objects: &[ObjectRecord], dead: &[Oid], oid: Oid) -> usize
    requires objects { AreAscendingObjects objects.now }
    requires dead { AreAscendingOids dead.now }
    ensures new { result ≡ 1 → ¬ (IsLive objects.now oid × (¬ Contains dead.now oid)) }
    ensures old { result ≡ 0 → IsLive objects.now oid × (¬ Contains dead.now oid) }
    ensures most { result ≤ 1 }
{
    if is_dead(dead, oid) {
        return 1;
    }
    1 - count_live(objects, oid)
}
