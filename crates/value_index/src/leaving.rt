ghost use Rattle.std.specs.Prelude.{◌≡◌, ◌≢◌, ◌↔◌, ◌+◌, ◌≤◌, length};
ghost use Rattle.std.specs.Prelude.{All, AllPairs, Contains, IsTrue};
ghost use Rattle.std.specs.Prelude.{vec_len, vec_capacity};
ghost use Rattle.value_index.specs.Types.{Complex, Wholes, Texts, Flags};
ghost use Rattle.value_orders.specs.Held.{AscendByObject, ArePut, has_value, less_objects};
ghost use Rattle.value_index.specs.inside.Leaving.{names, own_entries};
ghost use Rattle.value_orders.specs.EntryOrder.{AscendByValue};
ghost use Rattle.value_index.specs.inside.Leaving.{is_staying, leaving_of, IsPastLabel};

use crate::marks::{is_complex, mark_named};
use lore_base::{Label, Oid, Value};
use sorted_list::{OrderedList, place_of};
use value_orders::{ByValue, Entry, FEW, Kind, drop_values, has_value, put_values};

// Takes out the values of the objects that go and have no entry now, and puts in those that come.
// Takes no memory.
pub(crate) fn change_values(
    values: &mut Vec<(Oid, Value)>,
    gone: Vec<(Oid, Value)>,
    come: Vec<(Oid, Value)>,
    wholes: &OrderedList<Entry>,
    chars: &OrderedList<Entry>,
    flags: &OrderedList<Entry>,
)
    requires objects { AscendByObject values.old.items }
    requires gone { AscendByObject gone.items }
    requires atomic { All (λ object. object.1 ≢ Complex) gone.items }
    requires come { AscendByObject come.items }
    requires wholes { AscendByValue values.old.items Wholes wholes.now.items }
    requires chars { AscendByValue values.old.items Texts chars.now.items }
    requires flags { AscendByValue values.old.items Flags flags.now.items }
    requires room { vec_len values.old + length come.items ≤ vec_capacity values.old }
    ensures { ArePut come.items (less_objects (leaving_of come.items wholes.now.items
        chars.now.items flags.now.items gone.items) values.old.items) values.new.items }
{
    let wholes = wholes.as_slice();
    let chars = chars.as_slice();
    let flags = flags.as_slice();
    let leaving = leaving_objects(
        gone,
        come.as_slice(),
        values.as_slice(),
        wholes,
        chars,
        flags,
    );
    drop_values(values, leaving.as_slice());
    put_values(values, come);
}

// Those of the objects that are given no value and that none of the entries names. A few are looked
// for among the entries, and of more each entry's object is looked for among them.
fn leaving_objects(
    gone: Vec<(Oid, Value)>,
    come: &[(Oid, Value)],
    values: &[(Oid, Value)],
    wholes: &[Entry],
    chars: &[Entry],
    flags: &[Entry],
) -> Vec<(Oid, Value)>
    requires gone { AscendByObject gone.items }
    requires atomic { All (λ object. object.1 ≢ Complex) gone.items }
    requires come { AscendByObject come.now }
    requires values { AscendByObject values.now }
    requires wholes { AscendByValue values.now Wholes wholes.now }
    requires chars { AscendByValue values.now Texts chars.now }
    requires flags { AscendByValue values.now Flags flags.now }
    ensures { result.items ≡ leaving_of come.now wholes.now chars.now flags.now gone.items }
{
    if gone.len() <= FEW {
        few_leaving(gone, come, values, wholes, chars, flags)
    } else {
        many_leaving(gone, come, wholes, chars, flags)
    }
}

// The same, where each object is looked for among the entries.
fn few_leaving(
    gone: Vec<(Oid, Value)>,
    come: &[(Oid, Value)],
    values: &[(Oid, Value)],
    wholes: &[Entry],
    chars: &[Entry],
    flags: &[Entry],
) -> Vec<(Oid, Value)>
    requires come { AscendByObject come.now }
    requires values { AscendByObject values.now }
    requires wholes { AscendByValue values.now Wholes wholes.now }
    requires chars { AscendByValue values.now Texts chars.now }
    requires flags { AscendByValue values.now Flags flags.now }
    ensures { result.items ≡ leaving_of come.now wholes.now chars.now flags.now gone.items }
{
    let mut gone = gone;
    gone.retain(|object| !stays(object, come, values, wholes, chars, flags));
    gone
}

// The same, where the object of each entry is looked for. The values aren't needed any more: those
// of the objects that are found become complex, which none was, so that these are told.
fn many_leaving(
    gone: Vec<(Oid, Value)>,
    come: &[(Oid, Value)],
    wholes: &[Entry],
    chars: &[Entry],
    flags: &[Entry],
) -> Vec<(Oid, Value)>
    requires gone { AscendByObject gone.items }
    requires atomic { All (λ object. object.1 ≢ Complex) gone.items }
    requires come { AscendByObject come.now }
    ensures { result.items ≡ leaving_of come.now wholes.now chars.now flags.now gone.items }
{
    let mut gone = gone;
    mark_named(&mut gone, wholes, Kind::Wholes);
    mark_named(&mut gone, chars, Kind::Texts);
    mark_named(&mut gone, flags, Kind::Flags);
    gone.retain(|object| !(is_complex(&object.1) || has_value(come, object.0)));
    gone
}

// Whether the object is given a value, or an entry names it.
fn stays(
    object: &(Oid, Value),
    come: &[(Oid, Value)],
    values: &[(Oid, Value)],
    wholes: &[Entry],
    chars: &[Entry],
    flags: &[Entry],
) -> bool
    requires come { AscendByObject come.now }
    requires values { AscendByObject values.now }
    requires wholes { AscendByValue values.now Wholes wholes.now }
    requires chars { AscendByValue values.now Texts chars.now }
    requires flags { AscendByValue values.now Flags flags.now }
    ensures { result ≡ is_staying come.now wholes.now chars.now flags.now object.now }
{
    has_value(come, object.0) || has_entry(object, values, wholes, chars, flags)
}

// Whether an entry names the object, which has this value.
fn has_entry(
    object: &(Oid, Value),
    values: &[(Oid, Value)],
    wholes: &[Entry],
    chars: &[Entry],
    flags: &[Entry],
) -> bool
    requires values { AscendByObject values.now }
    requires wholes { AscendByValue values.now Wholes wholes.now }
    requires chars { AscendByValue values.now Texts chars.now }
    requires flags { AscendByValue values.now Flags flags.now }
    ensures { result
        ≡ names (own_entries wholes.now chars.now flags.now (object.now).1) (object.now).0 }
{
    match &object.1 {
        Value::Whole(_) => is_named(wholes, values, Kind::Wholes, object.0),
        Value::Chars(_) => is_named(chars, values, Kind::Texts, object.0),
        Value::Flag(_) => is_named(flags, values, Kind::Flags, object.0),
        Value::Complex => false,
    }
}

// Whether one of the entries names the object. It is looked for under each label by bisection.
fn is_named(entries: &[Entry], values: &[(Oid, Value)], kind: Kind, object: Oid) -> bool
    requires values { AscendByObject values.now }
    requires ascend { AscendByValue values.now kind entries.now }
    ensures { result ≡ names entries.now object }
{
    let mut start = 0;
    'labels: while start < entries.len() {
        let label = entries[start].label;
        let entry = Entry { label, object };
        if is_there(entries, values, kind, &entry) {
            return true;
        }
        start = end_of(entries, label);
    }
    false
}

// Whether the entry is one of the ascending ones.
fn is_there(entries: &[Entry], values: &[(Oid, Value)], kind: Kind, entry: &Entry) -> bool
    requires values { AscendByObject values.now }
    requires ascend { AscendByValue values.now kind entries.now }
    ensures { IsTrue result ↔ Contains entries.now entry.now }
{
    match place_of(entries, &ByValue::new(values, kind), entry) {
        Ok(_) => true,
        Err(_) => false,
    }
}

// The place behind the entries whose labels are this one or come before it.
fn end_of(entries: &[Entry], label: Label) -> usize
    requires { AllPairs (λ a b. a.label.0 ≤ b.label.0) entries.now }
    ensures bound { result ≤ length entries.now }
    ensures past { IsPastLabel entries.now label result }
{
    entries.partition_point(|entry| entry.label.0 <= label.0)
}
