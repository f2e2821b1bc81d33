ghost use Rattle.std.specs.Prelude.{◌≡◌, [], filter, not, map, IfOk};
ghost use Rattle.lore_base.specs.Walks.{edge_cmp};
ghost use Rattle.lore_base.specs.Databases.{AreAscendingEdges};
ghost use Rattle.edge_layers.specs.Types.{Out};
ghost use Rattle.edge_lists.specs.Objects.{AreAscendingObjects};
ghost use Rattle.edge_lists.specs.Chains.{AreChained};
ghost use Rattle.edge_layers.specs.EdgeTests.{edge_eq, is_listed, AreFound};
ghost use Rattle.edge_layers.specs.Layers.{staying};
ghost use Rattle.strand_sort.specs.StrandSorts.{AreJoined};

use edge_lists::{EdgeRecord, ObjectRecord, Sifted, sift};
use lore_base::{Edge, EdgeBuf, NoMemory};
use slab::Slab;
use std::alloc::Global;
use strand_sort::{joined, sorted_set};

// Whether the edge is one of the ascending ones, found by binary search.
fn is_kept(kept: &[Edge], edge: &Edge) -> bool
    requires { AreAscendingEdges kept.now }
    ensures { result ≡ is_listed kept.now edge.now }
{
    match kept.binary_search(edge) {
        Ok(_) => true,
        Err(_) => false,
    }
}

// The edges of `more` that aren't kept, in the same order.
fn without_kept(alloc: Global, kept: &[Edge], more: &[Edge]) -> Result<EdgeBuf, NoMemory>
    requires { AreAscendingEdges kept.now }
    ensures { IfOk result
        (λ fresh. fresh ≡ filter (λ edge. not (is_listed kept.now edge)) more.now) }
{
    let mut fresh = EdgeBuf::with_capacity(alloc, more.len())?;
    'edges: for edge in more {
        if !is_kept(kept, edge) {
            fresh.push(*edge)?;
        }
    }
    Ok(fresh)
}

/// Which of the edges are records, and which aren't, each in ascending order and once. Those in text
/// order are a few strands, at most one for each level of nesting where members are in the order of
/// their labels.
pub fn sifted_set(
    alloc: Global,
    objects: &[ObjectRecord],
    records: &Slab<EdgeRecord>,
    edges: &[Edge],
) -> Result<Sifted, NoMemory>
    requires ascend { AreAscendingObjects objects.now }
    requires chained { AreChained Out objects.now records.now [] }
    ensures { IfOk result
        (λ sifted. AreFound records.now edges.now sifted.there sifted.absent) }
{
    let sorted = sorted_set(alloc, edges)?;
    if records.is_empty() {
        return Ok(Sifted {
            there: EdgeBuf::new(alloc),
            keys: Vec::new(alloc),
            absent: sorted,
        });
    }
    let sifted = sift(alloc, objects, records, sorted.as_slice())?;
    Ok(sifted)
}

// The run of kept edges without those that are lost, and with the fresh ones, in ascending order.
pub(crate) fn layered_run(
    alloc: Global,
    kept: &[Edge],
    lost: &[Edge],
    fresh: &[Edge],
) -> Result<EdgeBuf, NoMemory>
    requires kept { AreAscendingEdges kept.now }
    requires lost { AreAscendingEdges lost.now }
    requires fresh { AreAscendingEdges fresh.now }
    ensures { IfOk result
        (λ run. AreJoined edge_cmp edge_eq (staying lost.now kept.now) fresh.now run) }
{
    let stay = without_kept(alloc, lost, kept)?;
    let run = joined(alloc, stay.as_slice(), fresh)?;
    Ok(run)
}
