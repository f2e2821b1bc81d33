ghost use Rattle.std.specs.Prelude.{◌≡◌, ℤ, Some, Contains, IfOk, OnOk};
ghost use Rattle.lore_base.specs.Comparisons.{Compares};
ghost use Rattle.join_tables.specs.Types.{Value as TheValue, Whole, Eq};
ghost use Rattle.join_tables.specs.Tables.{AreValuesOf};
ghost use Rattle.join_tables.specs.inside.Numbers.{AreNumbered, HasEnds, TakesNumber};

use index_traits::{ValueOf, Values};
use lore_base::{Label, Listing, NoMemory, Oid, OidBuf, Op, Value};
use oem_atom::as_whole;
use std::alloc::Global;

/// Objects, each under a whole number.
pub(crate) type NumberList = Listing<(i64, Oid)>;

/// How many objects have a whole number, or a text that reads as one, under the label.
pub(crate) fn count_of_numbers<V: Values>(values: &V, label: Label) -> u32 {
    values.probe_count(label, Op::Le, &Value::Whole(i64::MAX))
}

/// The objects that have a value under the label which is equal to a whole number, under that
/// number.
pub(crate) fn ends_of<G: ValueOf, V: Values>(
    alloc: Global,
    graph: &G,
    values: &V,
    label: Label,
) -> Result<NumberList, NoMemory>
    requires { AreValuesOf (G.objects graph.now) (V.entries values.now) }
    ensures { IfOk result (HasEnds (V.entries values.now) label) }
{
    let mut ends = OidBuf::new(alloc);
    // Each value that is equal to a whole number is at most the greatest one.
    values.probe(label, Op::Le, &Value::Whole(i64::MAX), &mut ends)?;
    numbered(alloc, graph, ends.as_slice())
}

// The objects under the numbers that their values are equal to. Those without one are left out.
fn numbered<G: ValueOf>(alloc: Global, graph: &G, oids: &[Oid]) -> Result<NumberList, NoMemory>
    ensures { IfOk result (AreNumbered (G.objects graph.now) oids.now) }
{
    let mut found = Listing::with_capacity(alloc, oids.len())?;
    'oids: for oid in oids {
        push_numbered(graph, *oid, &mut found)?;
    }
    Ok(found)
}

// Puts the object behind the others, if its value is equal to a number.
fn push_numbered<G: ValueOf>(graph: &G, oid: Oid, found: &mut NumberList) -> Result<(), NoMemory>
    ensures { OnOk result (TakesNumber (G.objects graph.now) oid found.old found.new) }
{
    match number_at(graph, oid) {
        Some(number) => found.push((number, oid)),
        None => Ok(()),
    }
}

// The number that the value of the object is equal to.
fn number_at<G: ValueOf>(graph: &G, oid: Oid) -> Option<i64>
    ensures { (value : TheValue) (number : ℤ) → Contains (G.objects graph.now) (oid, value)
        → Compares value Eq (Whole number) → result ≡ Some number }
{
    match graph.value_of(oid) {
        Some(value) => number_of(value),
        None => None,
    }
}

// The number that the value is equal to: it is the number, or a text that reads as it.
fn number_of(value: &Value) -> Option<i64>
    ensures { (number : ℤ) → Compares value.now Eq (Whole number) → result ≡ Some number }
{
    match value {
        Value::Whole(number) => Some(*number),
        Value::Chars(text) => as_whole(text),
        Value::Flag(_) => None,
        Value::Complex => None,
    }
}
