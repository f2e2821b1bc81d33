ghost use Rattle.std.specs.Prelude.{◌≡◌, ◌↔◌, ◌++◌, map, Contains, IsTrue, IfOk, OnOk};
ghost use Rattle.graph_changes.specs.Types.{Whole, Chars, Flag};
ghost use Rattle.lore_base.specs.Names.{IsNameTable};
ghost use Rattle.edge_lists.specs.Objects.{object_of, AreAscendingObjects};
ghost use Rattle.graph_changes.specs.Left.{AreAscendingOids};
ghost use Rattle.graph_changes.specs.Differing.{AreOnlyIn, AreDiffering, AreGoneObjects};
ghost use Rattle.graph_changes.specs.inside.OneMore.{with_only, IsPutUnlessThere};
ghost use Rattle.graph_changes.specs.inside.OneMore.{IsPutWhereThere, AreValuesOf};

use crate::object_lists::value_of;
use edge_lists::ObjectRecord;
use lore_base::{Names, NoMemory, ObjectList, OemText, Oid, OidBuf, TryCopy, Value};
use std::alloc::Global;

/// The names that one table has and the other one lacks, or has for another object, as a table of
/// them. An error only where memory is refused.
pub fn names_only_in(alloc: Global, names: &Names, others: &Names) -> Result<Names, NoMemory>
    requires names { IsNameTable names.now }
    requires others { IsNameTable others.now }
    ensures { IfOk result (AreOnlyIn names.now others.now) }
{
    let texts = names.texts()?;
    let oids = names.objects()?;
    let oids = oids.as_slice();
    let mut only = Names::new(alloc);
    'names: for (place, text) in texts.as_slice().iter().enumerate() {
        put_only(alloc, &mut only, others, text, oids[place])?;
    }
    Ok(only)
}

// Binds the name, unless the other table has it for the same object.
fn put_only(
    alloc: Global,
    only: &mut Names,
    others: &Names,
    text: &OemText,
    oid: Oid,
) -> Result<(), NoMemory>
    ensures { OnOk result (only.new ≡ with_only others.now only.old (text.now, oid)) }
{
    if others.find(text) == Some(oid) {
        return Ok(());
    }
    only.put(text.try_copy(alloc)?, oid)?;
    Ok(())
}

/// Those of the given values that objects don't have yet, in the same order. An error only where
/// memory is refused.
pub fn differing(
    alloc: Global,
    objects: &[ObjectRecord],
    given: ObjectList,
) -> Result<ObjectList, NoMemory>
    requires { AreAscendingObjects objects.now }
    ensures { IfOk result (AreDiffering (map object_of objects.now) given) }
{
    if objects.is_empty() {
        return Ok(given);
    }
    let mut come = ObjectList::new(alloc);
    'given: for object in given.into_items() {
        push_new(objects, &mut come, object)?;
    }
    Ok(come)
}

// Puts the object behind those that come, unless it is there with this value.
fn push_new(
    objects: &[ObjectRecord],
    come: &mut ObjectList,
    object: (Oid, Value),
) -> Result<(), NoMemory>
    requires { AreAscendingObjects objects.now }
    ensures { OnOk result (IsPutUnlessThere (map object_of objects.now) object come.old come.new) }
{
    if has_value(objects, &object) {
        return Ok(());
    }
    come.push(object)?;
    Ok(())
}

// Whether the object is there with this value.
fn has_value(objects: &[ObjectRecord], object: &(Oid, Value)) -> bool
    requires { AreAscendingObjects objects.now }
    ensures { IsTrue result ↔ Contains (map object_of objects.now) object.now }
{
    match value_of(objects, object.0) {
        Some(value) => is_same(value, &object.1),
        None => false,
    }
}

// Whether both are one value.
fn is_same(value: &Value, other: &Value) -> bool
    ensures { IsTrue result ↔ (value.now ≡ other.now) }
{
    match value {
        Value::Whole(number) => is_whole(other, *number),
        Value::Chars(text) => is_chars(other, text),
        Value::Flag(flag) => is_flag(other, *flag),
        Value::Complex => other.is_complex(),
    }
}

fn is_whole(value: &Value, number: i64) -> bool
    ensures { IsTrue result ↔ (value.now ≡ Whole number) }
{
    match value {
        Value::Whole(other) => *other == number,
        _ => false,
    }
}

fn is_chars(value: &Value, text: &OemText) -> bool
    ensures { IsTrue result ↔ (value.now ≡ Chars text.now) }
{
    match value {
        Value::Chars(other) => other == text,
        _ => false,
    }
}

fn is_flag(value: &Value, flag: bool) -> bool
    ensures { IsTrue result ↔ (value.now ≡ Flag flag) }
{
    match value {
        Value::Flag(other) => *other == flag,
        _ => false,
    }
}

/// The objects that go, with their values, in ascending order: the dead, and those that come with
/// other values. An error only where memory is refused.
pub fn values_gone(
    alloc: Global,
    objects: &[ObjectRecord],
    dead: &[Oid],
    come: &[(Oid, Value)],
) -> Result<ObjectList, NoMemory>
    requires { AreAscendingObjects objects.now }
    ensures { IfOk result (AreGoneObjects (map object_of objects.now) dead.now come.now) }
{
    if objects.is_empty() {
        return Ok(ObjectList::new(alloc));
    }
    let room = dead.len().saturating_add(come.len());
    let mut oids = OidBuf::with_capacity(alloc, room)?;
    oids.append(dead)?;
    push_oids(&mut oids, come)?;
    oids.sort_set();
    let gone = values_of(alloc, objects, oids.as_slice())?;
    Ok(gone)
}

// Puts the numbers of the objects behind `oids`.
fn push_oids(oids: &mut OidBuf, objects: &[(Oid, Value)]) -> Result<(), NoMemory>
    ensures { OnOk result (oids.new ≡ oids.old ++ map (λ o. o.0) objects.now) }
{
    'objects: for object in objects {
        oids.push(object.0)?;
    }
    Ok(())
}

// The values of those of the objects that are there.
fn values_of(alloc: Global, objects: &[ObjectRecord], oids: &[Oid]) -> Result<ObjectList, NoMemory>
    requires objects { AreAscendingObjects objects.now }
    requires oids { AreAscendingOids oids.now }
    ensures { IfOk result (AreValuesOf (map object_of objects.now) oids.now) }
{
    let mut values = ObjectList::new(alloc);
    'oids: for oid in oids {
        push_value(alloc, objects, &mut values, *oid)?;
    }
    Ok(values)
}

// Puts the object with its value behind the others, where it is there.
fn push_value(
    alloc: Global,
    objects: &[ObjectRecord],
    values: &mut ObjectList,
    oid: Oid,
) -> Result<(), NoMemory>
    requires { AreAscendingObjects objects.now }
    ensures { OnOk result (IsPutWhereThere (map object_of objects.now) oid values.old values.new) }
{
    let Some(value) = value_of(objects, oid) else {
        return Ok(());
    };
    values.push((oid, value.try_copy(alloc)?))?;
    Ok(())
}
