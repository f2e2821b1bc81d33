ghost use Rattle.std.specs.Prelude.{◌≡◌, ◌≢◌, [], IsTrue, All, AllPairs};
ghost use Rattle.std.specs.declared.cmp.Ordering.TheVariants.{Less};
ghost use Rattle.index_traits.specs.Entries.{AreAscendingEntries, entry_cmp};
ghost use Rattle.value_index.specs.Types.{Complex};
ghost use Rattle.value_index.specs.Values.{FitsEntries};

use super::ValueIndex;
use index_traits::{EntryList, ValueEntry};
use lore_base::{Label, NoMemory, OemText, Oid, Value, read_whole};
use std::alloc::Global;
use std::cmp::Ordering;
use std::test::Fail;
use value_orders::Entry;

// Labels of the objects 1, 2 and so on, with what writes their values: a text behind `'`, and else a
// flag or a whole number. Under one label two are the same number, and two texts read as the same.
const ENTRIES: [(u32, &str); 15] = [
    (1, "9"),
    (1, "-4"),
    (1, "'10"),
    (1, "'9"),
    (1, "true"),
    (1, "'true"),
    (1, "'false"),
    (1, "false"),
    (1, "9"),
    (1, "'09"),
    (2, "-5"),
    (2, "'10"),
    (2, "'x"),
    (2, "false"),
    (2, "'false"),
];

fn value_of(alloc: Global, word: &str) -> Result<Value, NoMemory> {
    match word.strip_prefix('\'') {
        Some(text) => Ok(Value::Chars(OemText::from_bytes(alloc, text.as_bytes())?)),
        None => Ok(plain_value(word)),
    }
}

fn plain_value(word: &str) -> Value {
    match word {
        "true" => Value::Flag(true),
        "false" => Value::Flag(false),
        _ => Value::Whole(read_whole(word.as_bytes()).unwrap_or(0)),
    }
}

fn entries(alloc: Global) -> Result<EntryList, NoMemory> {
    let mut list = EntryList::new(alloc);
    let mut object = 0_u32;
    for (label, word) in ENTRIES {
        object = object.saturating_add(1);
        list.push(ValueEntry {
            label: Label(label),
            value: value_of(alloc, word)?,
            object: Oid(object),
        })?;
    }
    Ok(list)
}

fn is_atomic(value: &Value) -> bool
    ensures { IsTrue result → value.now ≢ Complex }
{
    match value {
        Value::Complex => false,
        _ => true,
    }
}

fn are_atomic(entries: &[ValueEntry]) -> bool
    ensures { IsTrue result → All (λ entry. entry.value ≢ Complex) entries.now }
{
    entries.iter().all(|entry| is_atomic(&entry.value))
}

// Whether both the label and the object say which one is first.
fn is_before(a: &ValueEntry, b: &ValueEntry) -> bool
    ensures before { IsTrue result → entry_cmp a.now b.now ≡ Less }
    ensures apart { IsTrue result → a.now.object ≢ b.now.object }
{
    a.label.0 <= b.label.0 && a.object.0 < b.object.0
}

fn is_before_all(first: &ValueEntry, others: &[ValueEntry]) -> bool
    ensures before { IsTrue result → All (λ other. entry_cmp first.now other ≡ Less) others.now }
    ensures apart { IsTrue result → All (λ other. first.now.object ≢ other.object) others.now }
{
    others.iter().all(|other| is_before(first, other))
}

fn are_in_order(entries: &[ValueEntry]) -> bool
    ensures ascend { IsTrue result → AreAscendingEntries entries.now }
    ensures apart { IsTrue result → AllPairs (λ a b. a.object ≢ b.object) entries.now }
{
    match entries.split_first() {
        Some((first, others)) => is_before_all(first, others) && are_in_order(others),
        None => true,
    }
}

// Whether these entries may be the first of an index: told by a look at them, so that no proof
// depends on which they are.
fn can_be_first(entries: &[ValueEntry]) -> bool
    ensures { IsTrue result → FitsEntries [] [] entries.now }
{
    if entries.len() > 100 {
        return false;
    }
    if !are_in_order(entries) {
        return false;
    }
    are_atomic(entries)
}

// The index of entries that may be the first.
fn index_of(alloc: Global, come: EntryList) -> Result<ValueIndex, NoMemory>
    requires fits { FitsEntries [] [] come }
{
    let gone = EntryList::new(alloc);
    let mut index = ValueIndex::new(alloc);
    change(&mut index, gone, come)?;
    Ok(index)
}

// Takes out the entries that go and puts in those that come.
fn change(index: &mut ValueIndex, gone: EntryList, come: EntryList) -> Result<(), NoMemory>
    requires fits { FitsEntries index.old.entries gone come }
{
    let plan = index.prepare(gone, come)?;
    index.reserve(&plan)?;
    index.commit(plan);
    Ok(())
}

fn sample(alloc: Global) -> Result<ValueIndex, Fail> {
    let come = entries(alloc)?;
    if !can_be_first(come.as_slice()) {
        return Err(Fail::new("the entries are not in order"));
    }
    Ok(index_of(alloc, come)?)
}

// Whether these are the labels and objects of an order, whose entries are taken apart by all of their
// fields.
fn are_named(entries: &[Entry], named: &[(u32, u32)]) -> bool {
    for (place, Entry { label, object }) in entries.iter().enumerate() {
        if named.get(place) != Some(&(label.0, object.0)) {
            return false;
        }
    }
    entries.len() == named.len()
}

// Whether these are the objects that have values.
fn are_objects(values: &[(Oid, Value)], objects: &[u32]) -> bool {
    for (place, (object, _value)) in values.iter().enumerate() {
        if objects.get(place) != Some(&object.0) {
            return false;
        }
    }
    values.len() == objects.len()
}

// The object's value, found by going over all of them.
fn held(values: &[(Oid, Value)], object: Oid) -> Option<&Value> {
    for other in values {
        if other.0 == object {
            return Some(&other.1);
        }
    }
    None
}

fn number(value: Option<&Value>) -> Option<i64> {
    match value? {
        Value::Whole(number) => Some(*number),
        Value::Chars(text) => read_whole(text.as_bytes()),
        _ => None,
    }
}

fn text(value: Option<&Value>) -> Option<&[u8]> {
    match value? {
        Value::Chars(text) => Some(text.as_bytes()),
        _ => None,
    }
}

fn flag(value: Option<&Value>) -> Option<bool> {
    match value? {
        Value::Flag(flag) => Some(*flag),
        Value::Chars(text) => Some(text.as_bytes() == b"true".as_slice()),
        _ => None,
    }
}

// Whether the one entry stands before the other by label, then by what the order compares, then by
// object.
fn is_first(a: &Entry, b: &Entry, compared: Ordering) -> bool {
    let labels = a.label.0.cmp(&b.label.0);
    let objects = a.object.0.cmp(&b.object.0);
    labels.then(compared).then(objects) == Ordering::Less
}

fn numbers_ascend(values: &[(Oid, Value)], entries: &[Entry]) -> bool {
    for place in 1..entries.len() {
        let (a, b) = (&entries[place - 1], &entries[place]);
        let compared = number(held(values, a.object)).cmp(&number(held(values, b.object)));
        if !is_first(a, b, compared) {
            return false;
        }
    }
    true
}

fn texts_ascend(values: &[(Oid, Value)], entries: &[Entry]) -> bool {
    for place in 1..entries.len() {
        let (a, b) = (&entries[place - 1], &entries[place]);
        let compared = text(held(values, a.object)).cmp(&text(held(values, b.object)));
        if !is_first(a, b, compared) {
            return false;
        }
    }
    true
}

fn flags_ascend(values: &[(Oid, Value)], entries: &[Entry]) -> bool {
    for place in 1..entries.len() {
        let (a, b) = (&entries[place - 1], &entries[place]);
        let compared = flag(held(values, a.object)).cmp(&flag(held(values, b.object)));
        if !is_first(a, b, compared) {
            return false;
        }
    }
    true
}

// What an index keeps.
#[derive(Drop)]
struct Lists<'a> {
    values: &'a [(Oid, Value)],
    orders: [&'a [Entry]; 5],
}

// The pattern names all fields of an index, so that one more isn't read.
fn kept(index: &ValueIndex) -> Lists<'_> {
    let ValueIndex {
        values,
        wholes,
        chars,
        flags,
        readings,
        flag_readings,
    } = index;
    Lists {
        values: values.as_slice(),
        orders: [
            wholes.as_slice(),
            chars.as_slice(),
            flags.as_slice(),
            readings.as_slice(),
            flag_readings.as_slice(),
        ],
    }
}

fn all_ascend(lists: &Lists<'_>) -> bool {
    let [wholes, chars, flags, readings, flag_readings] = lists.orders;
    numbers_ascend(lists.values, wholes)
        && texts_ascend(lists.values, chars)
        && flags_ascend(lists.values, flags)
        && numbers_ascend(lists.values, readings)
        && flags_ascend(lists.values, flag_readings)
}

fn all_named(lists: &Lists<'_>) -> bool {
    let [wholes, chars, flags, readings, flag_readings] = lists.orders;
    are_named(wholes, BY_NUMBER.as_slice())
        && are_named(chars, BY_TEXT.as_slice())
        && are_named(flags, BY_FLAG.as_slice())
        && are_named(readings, BY_READ_NUMBER.as_slice())
        && are_named(flag_readings, BY_READ_FLAG.as_slice())
}

// Whether the index keeps the objects of `ENTRIES`, and its entries where they are to stand.
fn is_stated(index: &ValueIndex) -> bool {
    let lists = kept(index);
    are_objects(lists.values, OBJECTS.as_slice()) && all_ascend(&lists) && all_named(&lists)
}

#[test]
fn stated_fields(rt: HostRuntime) -> Result<(), Fail> {
    let index = sample(rt.alloc())?;
    assert!(rt; is_stated(&index));
    Ok(())
}

// The objects of `ENTRIES`, and where its entries stand in the orders.
const OBJECTS: [u32; 15] = [1, 2, 3, 4, 5, 6, 7, 8, 9, 10, 11, 12, 13, 14, 15];

const BY_NUMBER: [(u32, u32); 4] = [(1, 2), (1, 1), (1, 9), (2, 11)];

const BY_TEXT: [(u32, u32); 8] = [
    (1, 10),
    (1, 3),
    (1, 4),
    (1, 7),
    (1, 6),
    (2, 12),
    (2, 15),
    (2, 13),
];

const BY_FLAG: [(u32, u32); 3] = [(1, 8), (1, 5), (2, 14)];

const BY_READ_NUMBER: [(u32, u32); 4] = [(1, 4), (1, 10), (1, 3), (2, 12)];

const BY_READ_FLAG: [(u32, u32); 3] = [(1, 7), (1, 6), (2, 15)];
