ghost use Rattle.std.specs.Prelude.{◌≡◌, ◌≢◌, ◌+◌, ◌≤◌, ◌<◌, ◌++◌, length, OnOk};
ghost use Rattle.std.specs.List.{AllWithin, HoldsAt};
ghost use Rattle.lore_base.specs.Databases.{AreAscendingEdges};
ghost use Rattle.lore_base.specs.Walks.{out_of};
ghost use Rattle.object_search.specs.EdgeTests.{is_edge_in};

use crate::out_arcs::OutArcs;
use graph_search::Counter;
use lore_base::{Edge, EdgeBuf, NoMemory, Oid};
use std::marker::Model;

/// Ascending edges that are held, and so read without being counted: single ones, and those that
/// leave an object, are found by binary search. Contracts see them as the list.
#[derive(Drop)]
pub struct SortedEdges<'a> {
    edges: &'a [Edge],
}

impl<'a> Model for SortedEdges<'a> {
    ghost use Rattle.std.specs.Prelude.{List};
    ghost use Rattle.lore_base.specs.Databases.{AreAscendingEdges};
    ghost use Rattle.object_search.specs.Types.{Edge};

    ghost Value = { List Edge };

    ghost view = { λ s. s.edges.now };

    ghost invariant = { λ s. AreAscendingEdges s.edges.now };
}

impl<'a> SortedEdges<'a> {
    /// These edges, which ascend by parent, label and child.
    pub fn new(edges: &'a [Edge]) -> SortedEdges<'a>
        requires { AreAscendingEdges edges.now }
        ensures { result ≡ edges.now }
    {
        SortedEdges { edges }
    }

    /// Whether the edge is one of them.
    pub fn has(&self, edge: &Edge) -> bool
        ensures { result ≡ is_edge_in self.now edge.now }
    {
        is_in(self.edges, edge)
    }

    // Appends those that leave the object.
    fn push_run(&self, oid: Oid, buf: &mut EdgeBuf) -> Result<(), NoMemory>
        ensures { OnOk result (buf.new ≡ buf.old ++ out_of oid self.now) }
    {
        buf.append(run_of(self.edges, oid))
    }
}

impl<'a> OutArcs<()> for SortedEdges<'a> {
    ghost edges = { λ list. list };

    ghost cost = { λ _ _. 0 };

    fn push_out(&self, oid: Oid, buf: &mut EdgeBuf, counter: &mut ()) -> Result<(), NoMemory>
        ensures edges { OnOk result (buf.new ≡ buf.old ++ out_of oid self.now) }
        ensures cost { OnOk result
            (⟦<() as Counter>⟧.count counter.new ≡ ⟦<() as Counter>⟧.count counter.old + 0) }
    {
        let () = *counter;
        self.push_run(oid, buf)
    }
}

// Whether the edge is one of the ascending ones, found by binary search.
fn is_in(edges: &[Edge], edge: &Edge) -> bool
    requires { AreAscendingEdges edges.now }
    ensures { result ≡ is_edge_in edges.now edge.now }
{
    match edges.binary_search(edge) {
        Ok(_) => true,
        Err(_) => false,
    }
}

// How many of the edges leave the object before the first one that doesn't.
fn run_length(edges: &[Edge], oid: Oid) -> usize
    ensures inside { result ≤ length edges.now }
    ensures run { AllWithin (λ edge. edge.parent.0 ≡ oid.0) edges.now 0 result }
    ensures end { result < length edges.now
        → HoldsAt (λ edge. edge.parent.0 ≢ oid.0) edges.now result }
{
    'run: for (place, edge) in edges.iter().enumerate() {
        if edge.parent.0 != oid.0 {
            return place;
        }
    }
    edges.len()
}

// The edges that leave the object: one run of the ascending edges, whose start is found by binary
// search.
fn run_of(edges: &[Edge], oid: Oid) -> &[Edge]
    requires { AreAscendingEdges edges.now }
    ensures { result.now ≡ out_of oid edges.now }
{
    let start = edges.partition_point(|edge| edge.parent.0 < oid.0);
    let rest = &edges[start..];
    let len = run_length(rest, oid);
    &rest[..len]
}
