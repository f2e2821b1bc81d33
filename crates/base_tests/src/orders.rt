ghost use Rattle.std.specs.Prelude.{◌≡◌, ◌≢◌, ◌+◌, ◌≤◌, IsTrue, All, AllPairs, length};
ghost use Rattle.std.specs.Prelude.{vec_len, vec_capacity};
ghost use Rattle.std.specs.declared.cmp.Ordering.TheVariants.{Less};
ghost use Rattle.index_traits.specs.Types.{Complex};
ghost use Rattle.index_traits.specs.Entries.{AreAscendingEntries, entry_cmp};
ghost use Rattle.value_orders.specs.Held.{AscendByObject, object_cmp};

use crate::passing::pass;
use crate::values::{EntryRow, entries_of, value_of};
use index_traits::ValueEntry;
use lore_base::{NoMemory, Oid, Value};
use sorted_list::Order;
use std::alloc::Global;
use std::cmp::Ordering;
use std::test::Fail;
use value_orders::{
    ByValue, Entry, EntryOrders, Kind, compare_to, drop_values, has_value, is_of, is_sought,
    put_values, search,
};

// Labels, objects and what writes their values, in order.
const ENTRIES: [EntryRow; 8] = [
    (1, 1, "9"),
    (1, 2, "-4"),
    (1, 3, "'10"),
    (1, 4, "'9"),
    (1, 5, "true"),
    (1, 6, "'false"),
    (2, 7, "'x"),
    (2, 8, "9"),
];

fn is_atomic(value: &Value) -> bool
    ensures { IsTrue result → value.now ≢ Complex }
{
    match value {
        Value::Complex => false,
        _ => true,
    }
}

fn are_atomic(entries: &[ValueEntry]) -> bool
    ensures { IsTrue result → All (λ entry. entry.value ≢ Complex) entries.now }
{
    entries.iter().all(|entry| is_atomic(&entry.value))
}

// Whether both the label and the object say which one is first.
fn is_before(a: &ValueEntry, b: &ValueEntry) -> bool
    ensures before { IsTrue result → entry_cmp a.now b.now ≡ Less }
    ensures apart { IsTrue result → a.now.object ≢ b.now.object }
{
    a.label.0 <= b.label.0 && a.object.0 < b.object.0
}

fn is_before_all(first: &ValueEntry, others: &[ValueEntry]) -> bool
    ensures before { IsTrue result → All (λ other. entry_cmp first.now other ≡ Less) others.now }
    ensures apart { IsTrue result → All (λ other. first.now.object ≢ other.object) others.now }
{
    others.iter().all(|other| is_before(first, other))
}

fn are_in_order(entries: &[ValueEntry]) -> bool
    ensures ascend { IsTrue result → AreAscendingEntries entries.now }
    ensures apart { IsTrue result → AllPairs (λ a b. a.object ≢ b.object) entries.now }
{
    match entries.split_first() {
        Some((first, others)) => is_before_all(first, others) && are_in_order(others),
        None => true,
    }
}

// The orders of entries, or of none where these aren't in order.
fn orders_of(alloc: Global, entries: &mut [ValueEntry]) -> Result<Option<EntryOrders>, NoMemory> {
    if !are_in_order(entries) {
        return Ok(None);
    }
    if !are_atomic(entries) {
        return Ok(None);
    }
    Ok(Some(EntryOrders::of(alloc, entries)?))
}

fn in_order(orders: Result<Option<EntryOrders>, NoMemory>) -> Result<EntryOrders, Fail> {
    match orders? {
        Some(orders) => Ok(orders),
        None => Err(Fail::new("the entries are not in order")),
    }
}

fn sample(alloc: Global) -> Result<EntryOrders, Fail> {
    let mut given = entries_of(alloc, &ENTRIES)?.into_items();
    let orders = orders_of(alloc, given.as_mut_slice());
    drop(given);
    in_order(orders)
}

// The numbers of the objects as digits.
fn digits(order: &[Entry]) -> u64 {
    let mut digits = 0_u64;
    for entry in order {
        digits = digits
            .wrapping_mul(10)
            .wrapping_add(u64::from(entry.object.0));
    }
    digits
}

// The kinds, and the objects whose entries stand in their orders, as digits.
const ORDERS: [(Kind, u64); 5] = [
    (Kind::Wholes, 218),
    (Kind::Texts, 3_467),
    (Kind::Flags, 5),
    (Kind::Readings, 43),
    (Kind::FlagReadings, 6),
];

fn stand_so(orders: &EntryOrders, table: &[(Kind, u64)]) -> bool {
    for (kind, wanted) in table {
        if digits(orders.order(*kind)) != *wanted {
            return false;
        }
    }
    true
}

fn is_below_all(first: &(Oid, Value), others: &[(Oid, Value)]) -> bool
    ensures { IsTrue result → All (λ other. object_cmp first.now other ≡ Less) others.now }
{
    others.iter().all(|other| first.0.0 < other.0.0)
}

fn objects_ascend(values: &[(Oid, Value)]) -> bool
    ensures { IsTrue result → AscendByObject values.now }
{
    match values.split_first() {
        Some((first, others)) => is_below_all(first, others) && objects_ascend(others),
        None => true,
    }
}

// Whether the objects ascend, and each entry comes before the next one.
fn ascends(values: &[(Oid, Value)], kind: Kind, entries: &[Entry]) -> bool {
    if !objects_ascend(values) {
        return false;
    }
    let order = ByValue::new(values, kind);
    for place in 1..entries.len() {
        if order.compare(&entries[place - 1], &entries[place]) != Ordering::Less {
            return false;
        }
    }
    true
}

// How the value of an object stands to a number, and equal where the objects don't ascend.
fn stands(values: &[(Oid, Value)], object: u32, number: i64) -> Ordering {
    if !objects_ascend(values) {
        return Ordering::Equal;
    }
    compare_to(values, Kind::Wholes, Oid(object), &Value::Whole(number))
}

fn each_ascends(orders: &EntryOrders, table: &[(Kind, u64)]) -> bool {
    for (kind, _wanted) in table {
        if !ascends(orders.values.as_slice(), *kind, orders.order(*kind)) {
            return false;
        }
    }
    true
}

fn compare_so(values: &[(Oid, Value)]) -> bool {
    stands(values, 1, 7) == Ordering::Greater
        && stands(values, 4, 10) == Ordering::Less
        && stands(values, 99, -5) == Ordering::Less
}

// Entries stand in the order of their kinds, and values compare by their objects.
fn check_orders(orders: EntryOrders) -> Result<(), Fail> {
    let are_so = stand_so(&orders, &ORDERS) && each_ascends(&orders, &ORDERS);
    let values = orders.into_values();
    let is_so = are_so && compare_so(values.as_slice());
    drop(values);
    pass(Ok(is_so), "entries stand or compare otherwise")
}

fn kinds_of(value: &Value) -> [bool; 5] {
    [
        is_of(Kind::Wholes, value),
        is_of(Kind::Texts, value),
        is_of(Kind::Flags, value),
        is_of(Kind::Readings, value),
        is_of(Kind::FlagReadings, value),
    ]
}

fn kinds_sought(value: &Value) -> [bool; 5] {
    [
        is_sought(Kind::Wholes, value),
        is_sought(Kind::Texts, value),
        is_sought(Kind::Flags, value),
        is_sought(Kind::Readings, value),
        is_sought(Kind::FlagReadings, value),
    ]
}

// What writes a value, of which kinds it is, and with values of which kinds it is compared.
type Kinds = (&'static str, [bool; 5], [bool; 5]);

const KINDS: [Kinds; 5] = [
    (
        "9",
        [true, false, false, false, false],
        [true, false, false, true, false],
    ),
    (
        "'9",
        [false, true, false, true, false],
        [true, true, false, false, false],
    ),
    (
        "true",
        [false, false, true, false, false],
        [false, false, true, false, true],
    ),
    (
        "'false",
        [false, true, false, false, true],
        [false, true, true, false, false],
    ),
    (
        "'x",
        [false, true, false, false, false],
        [false, true, false, false, false],
    ),
];

fn is_of_kinds(alloc: Global, (word, of, sought): Kinds) -> Result<bool, NoMemory> {
    let value = value_of(alloc, word)?;
    let is_so = kinds_of(&value) == of && kinds_sought(&value) == sought;
    drop(value);
    Ok(is_so)
}

fn check_kinds(alloc: Global, table: &[Kinds]) -> Result<(), Fail> {
    for kinds in table {
        pass(is_of_kinds(alloc, *kinds), kinds.0)?;
    }
    Ok(())
}

// Appends so many objects with the number, each so far behind the one before it.
fn put_numbered(
    objects: &mut Vec<(Oid, Value)>,
    step: u32,
    count: u32,
    number: i64,
) -> Result<(), NoMemory> {
    let mut object = 0_u32;
    for _ in 0..count {
        object = object.saturating_add(step);
        objects.push((Oid(object), Value::Whole(number)))?;
    }
    Ok(())
}

fn numbered(
    alloc: Global,
    step: u32,
    count: u32,
    number: i64,
) -> Result<Vec<(Oid, Value)>, NoMemory> {
    let mut objects = Vec::new(alloc);
    put_numbered(&mut objects, step, count, number)?;
    Ok(objects)
}

fn put_ready(values: &mut Vec<(Oid, Value)>, given: Vec<(Oid, Value)>)
    requires { vec_len values.old + length given.items ≤ vec_capacity values.old }
{
    if objects_ascend(values.as_slice()) && objects_ascend(given.as_slice()) {
        put_values(values, given);
    } else {
        drop(given);
    }
}

fn put(values: &mut Vec<(Oid, Value)>, given: Vec<(Oid, Value)>) -> Result<(), NoMemory> {
    match values.reserve(given.len()) {
        Ok(()) => {
            put_ready(values, given);
            Ok(())
        }
        Err(_) => {
            drop(given);
            Err(NoMemory)
        }
    }
}

fn leave(values: &mut Vec<(Oid, Value)>, leaving: &[(Oid, Value)]) {
    if objects_ascend(values.as_slice()) && objects_ascend(leaving) {
        drop_values(values, leaving);
    }
}

// Every second object up to 40 gets the number 1. Of every fourth object so many leave, and so many
// of every third get the number 2.
fn change(
    alloc: Global,
    values: &mut Vec<(Oid, Value)>,
    (leaving, given): (u32, u32),
) -> Result<(), NoMemory> {
    put_numbered(values, 2, 20, 1)?;
    let left = numbered(alloc, 4, leaving, 0)?;
    leave(values, left.as_slice());
    drop(left);
    put(values, numbered(alloc, 3, given, 2)?)
}

// Whether the number is one of so many multiples of the step.
fn is_step(number: u32, step: u32, count: u32) -> bool {
    let is_among = number > 0 && number <= step.saturating_mul(count);
    is_among && number.checked_rem(step) == Some(0)
}

// What the object has then; 0 is nothing.
fn wanted(object: u32, leaving: u32, given: u32) -> i64 {
    if is_step(object, 3, given) {
        2
    } else if is_step(object, 2, 20) && !is_step(object, 4, leaving) {
        1
    } else {
        0
    }
}

// What it has.
fn number_at(values: &[(Oid, Value)], object: u32) -> i64 {
    match search(values, Oid(object)) {
        Ok(place) => number_in(&values[place].1),
        Err(_) => 0,
    }
}

fn number_in(value: &Value) -> i64 {
    match value {
        Value::Whole(number) => *number,
        _ => 0,
    }
}

// Whether each object has what it is to have.
fn are_wanted(values: &[(Oid, Value)], (leaving, given): (u32, u32)) -> bool {
    if !objects_ascend(values) {
        return false;
    }
    for object in 0..64 {
        let number = wanted(object, leaving, given);
        let has = has_value(values, Oid(object));
        if number_at(values, object) != number || has != (number != 0) {
            return false;
        }
    }
    true
}

// A few objects and more than a few, that leave and that come.
const CHANGES: [(u32, u32); 5] = [(0, 0), (3, 5), (18, 5), (3, 18), (18, 18)];

fn is_changed(alloc: Global, counts: (u32, u32)) -> Result<bool, NoMemory> {
    let mut values = Vec::new(alloc);
    let changed = change(alloc, &mut values, counts);
    let are_wanted = are_wanted(values.as_slice(), counts);
    drop(values);
    changed?;
    Ok(are_wanted)
}

fn check_changes(alloc: Global, table: &[(u32, u32)]) -> Result<(), Fail> {
    for counts in table {
        pass(is_changed(alloc, *counts), "an object has another value")?;
    }
    Ok(())
}

// Entries are put in order, values are of kinds and are sought in kinds, and objects leave and get
// values.
#[test]
fn values_have_orders(rt: HostRuntime) -> Result<(), Fail> {
    check_orders(sample(rt.alloc())?)?;
    check_kinds(rt.alloc(), &KINDS)?;
    check_changes(rt.alloc(), &CHANGES)
}
