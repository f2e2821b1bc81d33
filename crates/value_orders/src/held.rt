ghost use Rattle.std.specs.Prelude.{◌≡◌, ◌+◌, ◌<◌, ◌≤◌, [], length, take, slice_set, Some, IfSome};
ghost use Rattle.std.specs.Prelude.{vec_len, vec_capacity};
ghost use Rattle.std.specs.Option.{option_copied};
ghost use Rattle.std.specs.Ordering.{nat_cmp};
ghost use Rattle.std.specs.List.Sorted.{IsBinarySearchResult, IsSearchInRange};
ghost use Rattle.value_orders.specs.Held.{AscendByObject, value_in, has_value};
ghost use Rattle.value_orders.specs.Held.{ArePut};
ghost use Rattle.value_orders.specs.inside.Puts.{IsPut, IsSetOrPushed, IsPutBehind};
ghost use Rattle.value_orders.specs.Held.{less_objects};
ghost use Rattle.value_orders.specs.inside.Puts.{less_object};

use lore_base::{Oid, Value};

/// So many objects are put in, taken out or looked for one by one. More of them would cost more
/// than one pass over all.
pub const FEW: usize = 16;

// The object's value, where it has one. It is looked for near where it would stand if objects lay
// evenly among the numbers. It can be nowhere else, but no clause says that: so where it isn't
// there, it is looked for among all.
pub(crate) fn value_of(values: &[(Oid, Value)], oid: Oid) -> Option<&Value>
    requires { AscendByObject values.now }
    ensures { option_copied result ≡ value_in values.now oid }
{
    if let Some(value) = value_near(values, oid) {
        return Some(value);
    }
    match search(values, oid) {
        Ok(place) => Some(&values[place].1),
        Err(_) => None,
    }
}

/// Whether the object has a value among these, which stand by ascending object.
pub fn has_value(values: &[(Oid, Value)], oid: Oid) -> bool
    requires { AscendByObject values.now }
    ensures { result ≡ has_value values.now oid }
{
    match value_of(values, oid) {
        Some(_) => true,
        None => false,
    }
}

/// The object's place among these, which stand by ascending object; or, in the error, the place
/// before which it would stand.
pub fn search(values: &[(Oid, Value)], oid: Oid) -> Result<usize, usize>
    ensures bound { IsSearchInRange result (length values.now) }
    ensures position { IsBinarySearchResult (λ object. nat_cmp object.0.0 oid.0) values.now result }
{
    values.binary_search_by_key(&oid, |object| object.0)
}

// The object's value, found near where it would stand if objects lay evenly among the numbers.
fn value_near(values: &[(Oid, Value)], oid: Oid) -> Option<&Value>
    requires { AscendByObject values.now }
    ensures { IfSome result (λ value. value_in values.now oid ≡ Some value.now) }
{
    value_at(values, place_near(values, oid), oid)
}

// The place where the object stands, if it does. Numbers ascend, so it is at most as many places
// away from a guess as its number is from the one there, and is looked for among these. No clause
// says so, since whoever takes the place looks what is there.
fn place_near(values: &[(Oid, Value)], oid: Oid) -> usize {
    let guess = even_place(values, oid);
    let Some(object) = values.get(guess) else {
        return 0;
    };
    let off = object.0.0.abs_diff(oid.0) as usize;
    if object.0 < oid {
        place_among(values, guess, guess.saturating_add(off), oid)
    } else {
        place_among(values, guess.saturating_sub(off), guess, oid)
    }
}

// The place where the object would stand if the numbers rose evenly.
fn even_place(values: &[(Oid, Value)], oid: Oid) -> usize {
    let Some(first) = values.first() else {
        return 0;
    };
    let Some(last) = values.last() else {
        return 0;
    };
    let span = (last.0.0.saturating_sub(first.0.0) as usize).max(1);
    let gaps = values.len().saturating_sub(1);
    let places = (oid.0.saturating_sub(first.0.0) as usize).wrapping_mul(gaps) / span;
    places.min(gaps)
}

// The place of the object among those from the one place to the other.
fn place_among(values: &[(Oid, Value)], first: usize, last: usize, oid: Oid) -> usize {
    let end = last.saturating_add(1).min(values.len());
    let start = first.min(end);
    let near = &values[start..end];
    start.wrapping_add(near.partition_point(|object| object.0 < oid))
}

// The object's value, where the object stands at this place.
fn value_at(values: &[(Oid, Value)], place: usize, oid: Oid) -> Option<&Value>
    requires { AscendByObject values.now }
    ensures { IfSome result (λ value. value_in values.now oid ≡ Some value.now) }
{
    let object = values.get(place)?;
    if object.0 == oid {
        Some(&object.1)
    } else {
        None
    }
}

/// Gives objects their values; those that have none yet come at their places. Both lists stand by
/// ascending object, and there is room for all that are given. Takes no memory.
///
/// A few are put in one by one. Of more, those that have none are put behind all, which is then
/// sorted.
pub fn put_values(values: &mut Vec<(Oid, Value)>, given: Vec<(Oid, Value)>)
    requires ascend { AscendByObject values.old.items }
    requires given { AscendByObject given.items }
    requires room { vec_len values.old + length given.items ≤ vec_capacity values.old }
    ensures put { ArePut given.items values.old.items values.new.items }
    ensures capacity { vec_capacity values.new ≡ vec_capacity values.old }
{
    if given.len() <= FEW {
        put_each(values, given);
    } else {
        put_behind(values, given);
        values.sort_unstable_by_key(|object| object.0.0);
    }
}

// Puts each object by itself.
fn put_each(values: &mut Vec<(Oid, Value)>, given: Vec<(Oid, Value)>)
    requires ascend { AscendByObject values.old.items }
    requires given { AscendByObject given.items }
    requires room { vec_len values.old + length given.items ≤ vec_capacity values.old }
    ensures put { ArePut given.items values.old.items values.new.items }
    ensures capacity { vec_capacity values.new ≡ vec_capacity values.old }
{
    'given: for object in given {
        put_value(values, object);
    }
}

// Gives objects their values; those that have none yet come behind all others.
fn put_behind(values: &mut Vec<(Oid, Value)>, given: Vec<(Oid, Value)>)
    requires ascend { AscendByObject values.old.items }
    requires given { AscendByObject given.items }
    requires room { vec_len values.old + length given.items ≤ vec_capacity values.old }
    ensures put { IsPutBehind given.items [] values.old.items values.new.items }
    ensures capacity { vec_capacity values.new ≡ vec_capacity values.old }
{
    let known = values.len();
    'given: for object in given {
        set_or_push(values, known, object);
    }
}

// Gives an object its value, if it is one of so many at the front, and else puts it behind all.
fn set_or_push(values: &mut Vec<(Oid, Value)>, known: usize, object: (Oid, Value))
    requires known { known ≤ vec_len values.old }
    requires ascend { AscendByObject (take known values.old.items) }
    requires room { vec_len values.old < vec_capacity values.old }
    ensures set { IsSetOrPushed known object values.old.items values.new.items }
    ensures len { vec_len values.new ≤ vec_len values.old + 1 }
    ensures more { vec_len values.old ≤ vec_len values.new }
    ensures capacity { vec_capacity values.new ≡ vec_capacity values.old }
{
    match search(&values.as_slice()[..known], object.0) {
        Ok(place) => set_object(values.as_mut_slice(), place, object),
        Err(_) => values.push_reserved(object),
    }
}

// Gives an object its value, or puts it at its place.
fn put_value(values: &mut Vec<(Oid, Value)>, object: (Oid, Value))
    requires ascend { AscendByObject values.old.items }
    requires room { vec_len values.old < vec_capacity values.old }
    ensures put { IsPut object values.old.items values.new.items }
    ensures len { vec_len values.new ≤ vec_len values.old + 1 }
    ensures capacity { vec_capacity values.new ≡ vec_capacity values.old }
{
    match search(values.as_slice(), object.0) {
        Ok(place) => set_object(values.as_mut_slice(), place, object),
        Err(place) => {
            let Ok(()) = values.insert(place, object) else {
                unreachable!();
            };
        }
    }
}

// Puts an object in the place of another one.
fn set_object(values: &mut [(Oid, Value)], place: usize, object: (Oid, Value))
    requires { place < length values.old }
    ensures { values.new ≡ slice_set values.old place object }
{
    values[place] = object;
}

/// Takes out the values of the objects that leave, whatever values stand with these. Both lists
/// stand by ascending object, as what is left does. Takes no memory.
///
/// A few are looked for one by one. Of more, each value's object is looked for among them.
pub fn drop_values(values: &mut Vec<(Oid, Value)>, leaving: &[(Oid, Value)])
    requires values { AscendByObject values.old.items }
    requires leaving { AscendByObject leaving.now }
    ensures values { values.new.items ≡ less_objects leaving.now values.old.items }
    ensures few { vec_len values.new ≤ vec_len values.old }
    ensures capacity { vec_capacity values.new ≡ vec_capacity values.old }
{
    if leaving.len() <= FEW {
        drop_each(values, leaving);
    } else {
        values.retain(|object| !has_value(leaving, object.0));
    }
}

// Takes out the value of each object by itself.
fn drop_each(values: &mut Vec<(Oid, Value)>, leaving: &[(Oid, Value)])
    requires { AscendByObject values.old.items }
    ensures values { values.new.items ≡ less_objects leaving.now values.old.items }
    ensures few { vec_len values.new ≤ vec_len values.old }
    ensures capacity { vec_capacity values.new ≡ vec_capacity values.old }
{
    'leaving: for object in leaving {
        drop_value(values, object.0);
    }
}

// Takes out the value of an object, if it has one.
fn drop_value(values: &mut Vec<(Oid, Value)>, oid: Oid)
    requires { AscendByObject values.old.items }
    ensures values { values.new.items ≡ less_object oid values.old.items }
    ensures few { vec_len values.new ≤ vec_len values.old }
    ensures capacity { vec_capacity values.new ≡ vec_capacity values.old }
{
    match search(values.as_slice(), oid) {
        Ok(place) => {
            let _gone = values.remove(place);
        }
        Err(_) => {}
    }
}
