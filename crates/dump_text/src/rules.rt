ghost use Rattle.std.specs.Prelude.{◌≡◌, ◌≢◌, ◌↔◌, Bool, pos, ◌<◌, ◌≤◌, All};
ghost use Rattle.std.specs.Prelude.{IsTrue, IfSome, IfNone};
ghost use Rattle.lore_base.specs.Names.{IsNameTable, IsName, IsLabel};
ghost use Rattle.lore_base.specs.Databases.{AreAscendingObjects, AreAscendingEdges, IsSized};
ghost use Rattle.lore_base.specs.Databases.{IsLinked, IsLive, IsComplex};
ghost use Rattle.dump_text.specs.Types.{Flag, Complex, NEXT_NUMBER as THE_NEXT, NODES as THE_NODES};
ghost use Rattle.dump_text.specs.Dumps.{HasNoFlags};
ghost use Rattle.dump_text.specs.Rules as rules;
ghost use Rattle.dump_text.specs.Rules.{IsUpTo};

use graph_changes::value_in;
use lore_base::limits::{
    EDGES, LABELS, NAMES, NEXT_NUMBER, NODES, OBJECTS, TEXT_BYTES, WORD_BYTES,
};
use lore_base::{Edge, OemText, Oid, Value, is_name};
use lorel_trees::DumpTree;

// The next number of an object; None exactly where it isn't 1 to `NEXT_NUMBER`.
pub(crate) fn next_of(tree: &DumpTree) -> Option<u64>
    ensures some { IfSome result (λ next. tree.now.next ≡ pos next) }
    ensures ranged { IfSome result (λ next. (1 ≤ next) × (next ≤ THE_NEXT)) }
    ensures none { IfNone result (¬ IsUpTo THE_NEXT tree.now.next) }
{
    let Ok(next) = u64::try_from(tree.next) else {
        return None;
    };
    if 1 <= next && next <= NEXT_NUMBER {
        Some(next)
    } else {
        None
    }
}

// The limit on the guide's nodes; None exactly where it isn't 1 to `NODES`.
pub(crate) fn nodes_of(tree: &DumpTree) -> Option<u32>
    ensures some { IfSome result (λ nodes. tree.now.nodes ≡ pos nodes) }
    ensures ranged { IfSome result (λ nodes. (1 ≤ nodes) × (nodes ≤ THE_NODES)) }
    ensures none { IfNone result (¬ IsUpTo THE_NODES tree.now.nodes) }
{
    let Ok(nodes) = u32::try_from(tree.nodes) else {
        return None;
    };
    if 1 <= nodes && nodes <= NODES {
        Some(nodes)
    } else {
        None
    }
}

// Whether there are no more labels, names, objects and edges than a database holds.
pub(crate) fn are_few(tree: &DumpTree) -> bool
    ensures { IsTrue result ↔ rules.AreFew tree.now }
{
    tree.labels.len() <= LABELS
        && tree.names.len() <= NAMES
        && tree.objects.len() <= OBJECTS
        && tree.edges.len() <= EDGES
}

// Whether labels, names and values have their forms.
pub(crate) fn are_formed(tree: &DumpTree) -> bool
    ensures { IsTrue result ↔ rules.AreFormed tree.now }
{
    let labels = tree.labels.as_slice();
    let names = tree.names.as_slice();
    let objects = tree.objects.as_slice();
    if !are_labels(labels) {
        return false;
    }
    if !are_names(names) {
        return false;
    }
    are_sized(objects)
}

// Whether the text has 1 to 255 bytes.
fn is_label(text: &OemText) -> bool
    ensures { IsTrue result ↔ IsLabel text.now }
{
    let len = text.as_bytes().len();
    1 <= len && len <= WORD_BYTES
}

// Whether each of the texts has 1 to 255 bytes, as a label has.
fn are_labels(texts: &[OemText]) -> bool
    ensures { IsTrue result ↔ All IsLabel texts.now }
{
    'texts: for text in texts {
        if !is_label(text) {
            return false;
        }
    }
    true
}

// Whether each name is a word that may be one.
fn are_names(names: &[(OemText, Oid)]) -> bool
    ensures { IsTrue result ↔ All (λ entry. IsName entry.0) names.now }
{
    'names: for entry in names {
        if !is_name(entry.0.as_bytes()) {
            return false;
        }
    }
    true
}

// Whether the value keeps the limit of texts. A whole number is read, so that contracts know its
// range.
fn is_sized(value: &Value) -> bool
    ensures { IsTrue result ↔ IsSized value.now }
{
    match value {
        Value::Whole(number) => {
            let _number = *number;
            true
        }
        Value::Chars(text) => text.as_bytes().len() <= TEXT_BYTES,
        Value::Flag(_) | Value::Complex => true,
    }
}

// Whether the value is no flag.
fn is_no_flag(value: &Value) -> bool
    ensures { IsTrue result ↔ ((flag : Bool) → value.now ≢ Flag flag) }
{
    !matches!(value, Value::Flag(_))
}

// Whether no value is a flag.
pub(crate) fn have_no_flags(objects: &[(Oid, Value)]) -> bool
    ensures { IsTrue result ↔ HasNoFlags objects.now }
{
    'objects: for object in objects {
        if !is_no_flag(&object.1) {
            return false;
        }
    }
    true
}

// Whether each value that is a text keeps the limit of texts.
fn are_sized(objects: &[(Oid, Value)]) -> bool
    ensures { IsTrue result ↔ All (λ object. IsSized object.1) objects.now }
{
    'objects: for object in objects {
        if !is_sized(&object.1) {
            return false;
        }
    }
    true
}

// Whether the names ascend by their bytes.
pub(crate) fn are_ascending_names(names: &[(OemText, Oid)]) -> bool
    ensures { IsTrue result ↔ IsNameTable names.now }
{
    names.is_sorted_by(|a, b| a.0 < b.0)
}

// Whether the objects ascend by their numbers.
fn are_ascending_objects(objects: &[(Oid, Value)]) -> bool
    ensures { IsTrue result ↔ AreAscendingObjects objects.now }
{
    objects.is_sorted_by(|a, b| a.0.0 < b.0.0)
}

// Whether the object has a number from 1 on, below the next one.
fn is_numbered(oid: Oid, next: u64) -> bool
    ensures { IsTrue result ↔ ((1 ≤ oid.0) × (oid.0 < next)) }
{
    let number = u64::from(oid.0);
    1 <= number && number < next
}

// Whether each of the objects has a number from 1 on, below the next one.
fn are_in_range(objects: &[(Oid, Value)], next: u64) -> bool
    ensures { IsTrue result
        ↔ All (λ object. (1 ≤ object.0.0) × (object.0.0 < next)) objects.now }
{
    'objects: for object in objects {
        if !is_numbered(object.0, next) {
            return false;
        }
    }
    true
}

// Whether the objects ascend and have numbers from 1 on, below the next one.
pub(crate) fn are_numbered(objects: &[(Oid, Value)], next: u64) -> bool
    ensures { IsTrue result ↔ (AreAscendingObjects objects.now
        × All (λ object. (1 ≤ object.0.0) × (object.0.0 < next)) objects.now) }
{
    are_ascending_objects(objects) && are_in_range(objects, next)
}

// Whether the edges ascend by parent, label and child.
pub(crate) fn are_ascending_edges(edges: &[Edge]) -> bool
    ensures { IsTrue result ↔ AreAscendingEdges edges.now }
{
    edges.is_sorted_by(|a, b| a < b)
}

// Whether the object is live.
fn is_live(objects: &[(Oid, Value)], oid: Oid) -> bool
    requires { AreAscendingObjects objects.now }
    ensures { IsTrue result ↔ IsLive objects.now oid }
{
    match value_in(objects, oid) {
        Some(_) => true,
        None => false,
    }
}

// Whether the value is that of a complex object.
fn is_no_atom(value: &Value) -> bool
    ensures { IsTrue result ↔ (value.now ≡ Complex) }
{
    matches!(value, Value::Complex)
}

// Whether the object is complex.
fn is_complex(objects: &[(Oid, Value)], oid: Oid) -> bool
    requires { AreAscendingObjects objects.now }
    ensures { IsTrue result ↔ IsComplex objects.now oid }
{
    match value_in(objects, oid) {
        Some(value) => is_no_atom(value),
        None => false,
    }
}

// Whether the edge leads from a complex object to a live one.
fn is_linked(objects: &[(Oid, Value)], edge: &Edge) -> bool
    requires { AreAscendingObjects objects.now }
    ensures { IsTrue result ↔ IsLinked objects.now edge.now }
{
    is_complex(objects, edge.parent) && is_live(objects, edge.child)
}

// Whether each of the edges leads from a complex object to a live one.
pub(crate) fn are_linked(objects: &[(Oid, Value)], edges: &[Edge]) -> bool
    requires { AreAscendingObjects objects.now }
    ensures { IsTrue result ↔ All (IsLinked objects.now) edges.now }
{
    'edges: for edge in edges {
        if !is_linked(objects, edge) {
            return false;
        }
    }
    true
}

// Whether each name has a live object.
pub(crate) fn are_named(objects: &[(Oid, Value)], names: &[(OemText, Oid)]) -> bool
    requires { AreAscendingObjects objects.now }
    ensures { IsTrue result ↔ All (λ entry. IsLive objects.now entry.1) names.now }
{
    'names: for entry in names {
        if !is_live(objects, entry.1) {
            return false;
        }
    }
    true
}
