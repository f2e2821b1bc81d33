ghost use Rattle.std.specs.Prelude.{◌≡◌, ◌≢◌, IsTrue, IfOk, All};
ghost use Rattle.std.specs.declared.cmp.Ordering.TheVariants.{Less};
ghost use Rattle.index_traits.specs.Types.{Complex};
ghost use Rattle.index_traits.specs.Entries.{AreAscendingEntries, IsProbed, entry_cmp};

use crate::passing::pass;
use index_traits::{EntryList, ValueEntry, Values};
use lore_base::{Label, NoMemory, OemText, Oid, OidBuf, Op, TryCopy, Value, read_whole};
use std::alloc::Global;
use std::test::Fail;
use value_index::NaiveValues;

// The flag or the whole number that a word writes.
fn plain_value(word: &str) -> Value
    ensures { result ≢ Complex }
{
    match word {
        "true" => Value::Flag(true),
        "false" => Value::Flag(false),
        _ => Value::Whole(read_whole(word.as_bytes()).unwrap_or(0)),
    }
}

// The value that a word writes: a text behind `'`, and else a flag or a whole number.
pub(crate) fn value_of(alloc: Global, word: &str) -> Result<Value, NoMemory>
    ensures { IfOk result (λ value. value ≢ Complex) }
{
    match word.strip_prefix('\'') {
        Some(text) => Ok(Value::Chars(OemText::from_bytes(alloc, text.as_bytes())?)),
        None => Ok(plain_value(word)),
    }
}

/// A label, an object, and what writes its value.
pub(crate) type EntryRow = (u32, u32, &'static str);

fn put_entry(
    alloc: Global,
    (label, object, word): EntryRow,
    list: &mut EntryList,
) -> Result<(), NoMemory> {
    let value = value_of(alloc, word)?;
    list.push(ValueEntry {
        label: Label(label),
        value,
        object: Oid(object),
    })?;
    Ok(())
}

fn put_entries(alloc: Global, rows: &[EntryRow], list: &mut EntryList) -> Result<(), NoMemory> {
    for row in rows {
        put_entry(alloc, *row, list)?;
    }
    Ok(())
}

/// The entries of these rows.
pub(crate) fn entries_of(alloc: Global, rows: &[EntryRow]) -> Result<EntryList, NoMemory> {
    let mut list = EntryList::new(alloc);
    put_entries(alloc, rows, &mut list)?;
    Ok(list)
}

// Numbers and texts under one label, of which some texts read as numbers; objects with a second
// label; a label with an empty text; and one with flags, texts that read as flags, and others.
const PRICES: [EntryRow; 17] = [
    (0, 2, "12"),
    (0, 3, "'9"),
    (0, 5, "'cheap"),
    (0, 6, "-3"),
    (0, 7, "'9223372036854775808"),
    (0, 8, "'007"),
    (0, 9, "7"),
    (1, 2, "12"),
    (1, 4, "'Saigon"),
    (3, 1, "'"),
    (4, 1, "true"),
    (4, 2, "'true"),
    (4, 3, "false"),
    (4, 4, "'false"),
    (4, 5, "'True"),
    (4, 6, "1"),
    (4, 7, "'truer"),
];

fn is_before(a: &ValueEntry, b: &ValueEntry) -> bool
    ensures { IsTrue result → entry_cmp a.now b.now ≡ Less }
{
    a.label.0 < b.label.0 || (a.label.0 == b.label.0 && a.object.0 < b.object.0)
}

fn is_before_all(first: &ValueEntry, others: &[ValueEntry]) -> bool
    ensures { IsTrue result → All (λ other. entry_cmp first.now other ≡ Less) others.now }
{
    others.iter().all(|other| is_before(first, other))
}

fn ascend(entries: &[ValueEntry]) -> bool
    ensures { IsTrue result → AreAscendingEntries entries.now }
{
    match entries.split_first() {
        Some((first, others)) => is_before_all(first, others) && ascend(others),
        None => true,
    }
}

// A copy of them.
fn prices(alloc: Global) -> Result<EntryList, NoMemory> {
    let given = entries_of(alloc, &PRICES)?;
    let copy = given.try_copy(alloc);
    drop(given);
    copy
}

// Their plain list.
fn values(alloc: Global) -> Result<NaiveValues, Fail> {
    let entries = prices(alloc)?;
    if ascend(entries.as_slice()) && entries.len() <= 17 {
        return Ok(NaiveValues::new(entries));
    }
    drop(entries);
    Err(Fail::new("the prices are not in order"))
}

// The operator that is written so; any other word is `>=`.
fn op_of(sign: &str) -> Op
    ensures { IsProbed result }
{
    match sign {
        "=" => Op::Eq,
        "<" => Op::Lt,
        "<=" => Op::Le,
        ">" => Op::Gt,
        _ => Op::Ge,
    }
}

// Appends the objects that a probe finds to a 1.
fn put_found(
    values: &NaiveValues,
    label: Label,
    op: Op,
    value: &Value,
    oids: &mut OidBuf,
) -> Result<(), NoMemory>
    requires op { IsProbed op }
    requires value { value.now ≢ Complex }
{
    oids.push(Oid(1))?;
    values.probe(label, op, value, oids)
}

// The objects that a probe finds, as digits behind a 1 that was there, and how many it counts.
fn found_by(
    alloc: Global,
    values: &NaiveValues,
    label: Label,
    op: Op,
    value: &Value,
) -> Result<(u64, u32), NoMemory>
    requires op { IsProbed op }
    requires value { value.now ≢ Complex }
{
    let mut oids = OidBuf::new(alloc);
    let put = put_found(values, label, op, value, &mut oids);
    let digits = digits(&oids);
    drop(oids);
    put?;
    Ok((digits, values.probe_count(label, op, value)))
}

// The same of what is asked, an operator with a value.
fn found(
    alloc: Global,
    values: &NaiveValues,
    label: u32,
    asked: &str,
) -> Result<(u64, u32), NoMemory> {
    let (sign, word) = asked.split_once(' ').unwrap_or((asked, ""));
    let value = value_of(alloc, word)?;
    let found = found_by(alloc, values, Label(label), op_of(sign), &value);
    drop(value);
    found
}

// The numbers of the objects as digits.
fn digits(oids: &OidBuf) -> u64 {
    let mut digits = 0_u64;
    for oid in oids.as_slice() {
        digits = digits.wrapping_mul(10).wrapping_add(u64::from(oid.0));
    }
    digits
}

// A label, an operator with a value, and the objects and the count.
type Probe = (u32, &'static str, u64, u32);

const PROBES: [Probe; 26] = [
    (0, "= 7", 189, 2),
    (0, "< 10", 13_689, 4),
    (0, "< 9", 1_689, 3),
    (0, "<= 9", 13_689, 4),
    (0, "> 9", 12, 1),
    (0, ">= 9", 123, 2),
    (0, ">= 9223372036854775807", 1, 0),
    (0, "= '7", 19, 1),
    (0, "= '9", 13, 1),
    (0, "< '9", 1_689, 3),
    (0, ">= '9", 12_357, 4),
    (0, "<= 'cheap", 13_578, 4),
    (0, "> 'cheap", 1, 0),
    (0, "> '-4", 12_356_789, 7),
    (1, "<= 12", 12, 1),
    (1, "= '012", 12, 1),
    (1, "> 'Sai", 14, 1),
    (2, ">= -3", 1, 0),
    (3, "<= '", 11, 1),
    (3, "<= 9223372036854775807", 1, 0),
    (4, "= true", 112, 2),
    (4, "< true", 134, 2),
    (4, "= 'true", 112, 2),
    (4, "> 'false", 1_127, 3),
    (4, "< 'truer", 1_245, 3),
    (4, "<= 1", 16, 1),
];

fn finds(alloc: Global, values: &NaiveValues, probe: Probe) -> Result<bool, NoMemory> {
    let (label, asked, wanted, count) = probe;
    Ok(found(alloc, values, label, asked)? == (wanted, count))
}

fn check_probes(alloc: Global, values: &NaiveValues, table: &[Probe]) -> Result<(), Fail> {
    for probe in table {
        pass(finds(alloc, values, *probe), probe.1)?;
    }
    Ok(())
}

#[test]
fn probes_find_what_compares_so(rt: HostRuntime) -> Result<(), Fail> {
    let values = values(rt.alloc())?;
    let checked = check_probes(rt.alloc(), &values, &PROBES);
    drop(values);
    checked
}
