ghost use Rattle.std.specs.Prelude.{◌≡◌};
ghost use Rattle.updates.specs.Effects.{is_atomic};
ghost use Rattle.updates.specs.inside.RowTests.{has_child, any_parent, hides_children};
ghost use Rattle.updates.specs.inside.RowTests.{any_atomic, any_atomic_link};

use index_traits::ValueOf;
use lore_base::{Oid, Value};
use oem_graph::Graph;

/// Whether the object has an atomic value.
pub(crate) fn is_atomic(graph: &Graph, oid: Oid) -> bool
    ensures { result ≡ is_atomic graph.now.graph.objects oid }
{
    match graph.value_of(oid) {
        Some(value) => !value.is_complex(),
        None => false,
    }
}

// Whether an edge leaves the object.
fn is_parent(graph: &Graph, oid: Oid) -> bool
    ensures { result ≡ has_child graph.now.graph.edges oid }
{
    graph.has_edge(oid)
}

// Whether an edge leaves the target of some row.
fn any_parent(graph: &Graph, rows: &[(Oid, Option<Oid>)]) -> bool
    ensures { result ≡ any_parent graph.now.graph.edges rows.now }
{
    'rows: for (target, _) in rows {
        if is_parent(graph, *target) {
            return true;
        }
    }
    false
}

/// Whether the value is atomic and an edge leaves the target of some row.
pub(crate) fn hides_children(graph: &Graph, value: &Value, rows: &[(Oid, Option<Oid>)]) -> bool
    ensures { result ≡ hides_children graph.now.graph.edges value.now rows.now }
{
    if value.is_complex() {
        return false;
    }
    any_parent(graph, rows)
}

/// Whether the target of some row has an atomic value.
pub(crate) fn any_atomic(graph: &Graph, rows: &[(Oid, Option<Oid>)]) -> bool
    ensures { result ≡ any_atomic graph.now.graph.objects rows.now }
{
    'rows: for (target, _) in rows {
        if is_atomic(graph, *target) {
            return true;
        }
    }
    false
}

/// Whether some row has an object on its right side and a target with an atomic value.
pub(crate) fn any_atomic_link(graph: &Graph, rows: &[(Oid, Option<Oid>)]) -> bool
    ensures { result ≡ any_atomic_link graph.now.graph.objects rows.now }
{
    'rows: for (target, other) in rows {
        if other.is_some() && is_atomic(graph, *target) {
            return true;
        }
    }
    false
}
