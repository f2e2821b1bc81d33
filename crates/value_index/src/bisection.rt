ghost use Rattle.std.specs.Prelude.{◌≡◌, ◌≢◌, ◌<◌, ◌≤◌, length};
ghost use Rattle.std.specs.List.{HoldsAt};
ghost use Rattle.std.specs.declared.cmp.Ordering.TheVariants.{Equal};
ghost use Rattle.index_traits.specs.Entries.{IsProbed};
ghost use Rattle.value_orders.specs.Held.{held, AscendByObject};
ghost use Rattle.value_orders.specs.Kinds.{value_cmp};
ghost use Rattle.value_orders.specs.EntryOrder.{AscendByValue};
ghost use Rattle.value_index.specs.inside.Runs.{side_of, side_in, run_in, run_at};

use lore_base::{Label, Oid, Op, Value};
use std::cmp::Ordering;
use value_orders::{Entry, Kind, compare_to, is_sought};

// The entries that are sought: one run of the ascending entries, and nothing where values of the
// kind aren't compared with this one.
pub(crate) fn run_of<'a>(
    entries: &'a [Entry],
    values: &[(Oid, Value)],
    kind: Kind,
    label: Label,
    op: Op,
    value: &Value,
) -> &'a [Entry]
    requires objects { AscendByObject values.now }
    requires ascend { AscendByValue values.now kind entries.now }
    requires op { IsProbed op }
    ensures { result.now ≡ run_at values.now kind label op value.now entries.now }
{
    if is_sought(kind, value) {
        bisected(entries, values, kind, label, op, value)
    } else {
        &[]
    }
}

// The run of a value, whose two ends are found by bisection.
fn bisected<'a>(
    entries: &'a [Entry],
    values: &[(Oid, Value)],
    kind: Kind,
    label: Label,
    op: Op,
    value: &Value,
) -> &'a [Entry]
    requires objects { AscendByObject values.now }
    requires ascend { AscendByValue values.now kind entries.now }
    requires op { IsProbed op }
    ensures { result.now ≡ run_in values.now kind label op value.now entries.now }
{
    let start = entries.partition_point(|entry| side(entry, values, kind, label, op, value)
        == Ordering::Less);
    let rest = &entries[start..];
    let near = &rest[..reach(rest, values, kind, label, op, value)];
    let len = near.partition_point(|entry| side(entry, values, kind, label, op, value)
        == Ordering::Equal);
    &near[..len]
}

// A place that the run at the front of these entries doesn't go beyond. It is looked for in steps
// that double, since a run is most often short.
fn reach(
    entries: &[Entry],
    values: &[(Oid, Value)],
    kind: Kind,
    label: Label,
    op: Op,
    value: &Value,
) -> usize
    requires { AscendByObject values.now }
    ensures bound { result ≤ length entries.now }
    ensures end { result < length entries.now → HoldsAt (λ entry. side_in values.now kind label op
        value.now entry ≢ Equal) entries.now result }
{
    let mut place: usize = 1;
    'steps: while place < entries.len() {
        if side(&entries[place], values, kind, label, op, value) != Ordering::Equal {
            return place;
        }
        place = place.saturating_mul(2);
    }
    entries.len()
}

// On which side of the run the entry stands: `Less` before it, `Equal` in it, `Greater` behind it.
fn side(
    entry: &Entry,
    values: &[(Oid, Value)],
    kind: Kind,
    label: Label,
    op: Op,
    value: &Value,
) -> Ordering
    requires { AscendByObject values.now }
    ensures { result ≡ side_in values.now kind label op value.now entry.now }
{
    match entry.label.cmp(&label) {
        Ordering::Equal => side_of_value(values, kind, op, value, entry.object),
        other => other,
    }
}

// The same among the entries of one label.
fn side_of_value(
    values: &[(Oid, Value)],
    kind: Kind,
    op: Op,
    value: &Value,
    object: Oid,
) -> Ordering
    requires { AscendByObject values.now }
    ensures { result ≡ side_of op (value_cmp kind (held values.now object) value.now) }
{
    side_of_key(op, compare_to(values, kind, object, value))
}

// The same by how the value compares.
fn side_of_key(op: Op, order: Ordering) -> Ordering
    ensures { result ≡ side_of op order }
{
    match (op, order) {
        (Op::Lt, Ordering::Less) => Ordering::Equal,
        (Op::Lt, _) => Ordering::Greater,
        (Op::Le, Ordering::Greater) => Ordering::Greater,
        (Op::Le, _) => Ordering::Equal,
        (Op::Gt, Ordering::Greater) => Ordering::Equal,
        (Op::Gt, _) => Ordering::Less,
        (Op::Ge, Ordering::Less) => Ordering::Less,
        (Op::Ge, _) => Ordering::Equal,
        _ => order,
    }
}
