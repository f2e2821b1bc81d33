ghost use Rattle.std.specs.Prelude.{◌≡◌};
ghost use Rattle.std.specs.Ordering.{nat_cmp, ordering_then};
ghost use Rattle.value_orders.specs.Kinds.{value_cmp};
ghost use Rattle.value_orders.specs.Held.{held, AscendByObject};
ghost use Rattle.value_orders.specs.EntryOrder.{entry_order, order_total};
ghost use Rattle.value_orders.specs.inside.Valued.{valued_order};

use crate::entry::Entry;
use crate::held::value_of;
use crate::keys::compare_values;
use crate::kind::Kind;
use index_traits::ValueEntry;
use lore_base::{Oid, Value};
use sorted_list::Order;
use std::cmp::Ordering;
use std::marker::Model;

/// The order of entries of a kind by label, then by the values that their objects have in a list
/// of ascending objects, then by object. Contracts see it as that list and the kind.
#[derive(Drop)]
pub struct ByValue<'a> {
    values: &'a [(Oid, Value)],
    kind: Kind,
}

impl<'a> Model for ByValue<'a> {
    ghost use Rattle.value_orders.specs.Held.{AscendByObject};
    ghost use Rattle.value_orders.specs.EntryOrder.{ValueOrder};

    ghost Value = { ValueOrder };

    ghost view = { λ o. record { values = o.values.now; kind = o.kind } };

    ghost invariant = { λ o. AscendByObject o.values.now };
}

impl<'a> ByValue<'a> {
    /// The order by these values, which stand by ascending object.
    pub fn new(values: &'a [(Oid, Value)], kind: Kind) -> ByValue<'a>
        requires { AscendByObject values.now }
        ensures values { result.values ≡ values.now }
        ensures kind { result.kind ≡ kind }
    {
        ByValue { values, kind }
    }
}

impl<'a> Order<Entry> for ByValue<'a> {
    ghost order_of = { λ o. entry_order o.values o.kind };

    ghost total = { λ o. order_total o.values o.kind };

    fn compare(&self, first: &Entry, second: &Entry) -> Ordering {
        compare_entries(self.values, self.kind, first, second)
    }
}

// How the one entry stands to the other.
fn compare_entries(values: &[(Oid, Value)], kind: Kind, a: &Entry, b: &Entry) -> Ordering
    requires { AscendByObject values.now }
    ensures { result ≡ entry_order values.now kind a.now b.now }
{
    match a.label.cmp(&b.label) {
        Ordering::Equal => compare_objects(values, kind, a.object, b.object),
        other => other,
    }
}

// The same of entries of one label.
fn compare_objects(values: &[(Oid, Value)], kind: Kind, a: Oid, b: Oid) -> Ordering
    requires { AscendByObject values.now }
    ensures { result ≡ ordering_then (value_cmp kind (held values.now a) (held values.now b))
        (nat_cmp a.0 b.0) }
{
    match compare_held(values, kind, a, b) {
        Ordering::Equal => a.cmp(&b),
        other => other,
    }
}

// How the values of two objects stand; that of an object without one is complex.
fn compare_held(values: &[(Oid, Value)], kind: Kind, a: Oid, b: Oid) -> Ordering
    requires { AscendByObject values.now }
    ensures { result ≡ value_cmp kind (held values.now a) (held values.now b) }
{
    let none = Value::Complex;
    match value_of(values, b) {
        Some(value) => compare_to(values, kind, a, value),
        None => compare_to(values, kind, a, &none),
    }
}

// How the one entry stands to the other, by the values that they have.
pub(crate) fn compare_valued(kind: Kind, a: &ValueEntry, b: &ValueEntry) -> Ordering
    ensures { result ≡ valued_order kind a.now b.now }
{
    match a.label.cmp(&b.label) {
        Ordering::Equal => compare_in_label(kind, a, b),
        other => other,
    }
}

// The same of entries of one label.
fn compare_in_label(kind: Kind, a: &ValueEntry, b: &ValueEntry) -> Ordering
    ensures { result ≡ ordering_then (value_cmp kind (a.now).value (b.now).value)
        (nat_cmp (a.now).object.0 (b.now).object.0) }
{
    match compare_values(kind, &a.value, &b.value) {
        Ordering::Equal => a.object.cmp(&b.object),
        other => other,
    }
}

/// How the value that an object has among these, by what the kind compares, stands to this one. An
/// object without a value stands as a complex one does, and what the kind doesn't compare comes
/// first.
pub fn compare_to(values: &[(Oid, Value)], kind: Kind, object: Oid, value: &Value) -> Ordering
    requires { AscendByObject values.now }
    ensures { result ≡ value_cmp kind (held values.now object) value.now }
{
    let none = Value::Complex;
    match value_of(values, object) {
        Some(own) => compare_values(kind, own, value),
        None => compare_values(kind, &none, value),
    }
}
