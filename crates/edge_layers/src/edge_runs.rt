ghost use Rattle.std.specs.Prelude.{◌≡◌, ◌<◌, ◌≢◌, ◌≤◌, length, IfSome, All};
ghost use Rattle.std.specs.Bool.{OnTrue};
ghost use Rattle.std.specs.List.{AllWithin, HoldsAt};
ghost use Rattle.lore_base.specs.Databases.{AreAscendingEdges};
ghost use Rattle.lore_base.specs.Walks.{out_of};

use lore_base::{Edge, Oid};

/// The edges that leave the object: one run of the ascending edges, whose start is found by binary
/// search. From there on the run is read to its end, as its reader does.
pub fn run_of(edges: &[Edge], oid: Oid) -> &[Edge]
    requires { AreAscendingEdges edges.now }
    ensures { result.now ≡ out_of oid edges.now }
{
    let start = edges.partition_point(|edge| edge.parent.0 < oid.0);
    let rest = &edges[start..];
    let len = run_length(rest, oid);
    &rest[..len]
}

// How many of the edges leave the object before the first one that doesn't.
fn run_length(edges: &[Edge], oid: Oid) -> usize
    ensures inside { result ≤ length edges.now }
    ensures run { AllWithin (λ edge. edge.parent.0 ≡ oid.0) edges.now 0 result }
    ensures end { result < length edges.now
        → HoldsAt (λ edge. edge.parent.0 ≢ oid.0) edges.now result }
{
    'run: for (place, edge) in edges.iter().enumerate() {
        if edge.parent.0 != oid.0 {
            return place;
        }
    }
    edges.len()
}

// The edges between these places, where they are the ones that leave the object: those before them
// and behind them don't.
pub(crate) fn run_at(edges: &[Edge], oid: Oid, start: usize, end: usize) -> Option<&[Edge]>
    requires { AreAscendingEdges edges.now }
    ensures { IfSome result (λ run. run.now ≡ out_of oid edges.now) }
{
    let (before, others) = edges.split_at_checked(start)?;
    let (run, behind) = others.split_at_checked(end.saturating_sub(start))?;
    if end_below(before, oid) && begin_above(behind, oid) && leave(run, oid) {
        Some(run)
    } else {
        None
    }
}

// Whether the parents of all are below the object, told by the last of them.
fn end_below(edges: &[Edge], oid: Oid) -> bool
    requires { AreAscendingEdges edges.now }
    ensures { OnTrue result (All (λ edge. edge.parent.0 < oid.0) edges.now) }
{
    match edges.last() {
        Some(last) => last.parent.0 < oid.0,
        None => true,
    }
}

// Whether the parents of all are above the object, told by the first of them.
fn begin_above(edges: &[Edge], oid: Oid) -> bool
    requires { AreAscendingEdges edges.now }
    ensures { OnTrue result (All (λ edge. oid.0 < edge.parent.0) edges.now) }
{
    match edges.first() {
        Some(first) => oid.0 < first.parent.0,
        None => true,
    }
}

// Whether all leave the object, told by the first and the last of them.
fn leave(edges: &[Edge], oid: Oid) -> bool
    requires { AreAscendingEdges edges.now }
    ensures { OnTrue result (All (λ edge. edge.parent.0 ≡ oid.0) edges.now) }
{
    let Some(first) = edges.first() else {
        return true;
    };
    let Some(last) = edges.last() else {
        return true;
    };
    first.parent.0 == oid.0 && last.parent.0 == oid.0
}
