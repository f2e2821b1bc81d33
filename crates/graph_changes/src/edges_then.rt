ghost use Rattle.std.specs.Prelude.{◌≡◌, [], IfOk};
ghost use Rattle.lore_base.specs.Databases.{AreAscendingEdges};
ghost use Rattle.graph_changes.specs.Types.{Out};
ghost use Rattle.edge_lists.specs.Objects.{AreAscendingObjects};
ghost use Rattle.edge_lists.specs.Chains.{AreChained};
ghost use Rattle.graph_changes.specs.Left.{AreAscendingOids, edges_left, AreGone};
ghost use Rattle.graph_changes.specs.inside.Leaving.{AreLeaving};

use crate::dead_oids::is_dead;
use edge_lists::{EdgeRecord, ObjectRecord, Side, push_records};
use lore_base::{Edge, EdgeBuf, NoMemory, Oid};
use slab::Slab;
use std::alloc::Global;
use strand_sort::joined;

// The edges whose parent isn't dead, in the same order.
pub(crate) fn with_living_parents(
    alloc: Global,
    edges: EdgeBuf,
    dead: &[Oid],
) -> Result<EdgeBuf, NoMemory>
    requires { AreAscendingOids dead.now }
    ensures { IfOk result (λ left. left ≡ edges_left dead.now edges) }
{
    if dead.is_empty() {
        return Ok(edges);
    }
    let mut left = EdgeBuf::with_capacity(alloc, edges.len())?;
    'edges: for edge in edges.as_slice() {
        if !is_dead(dead, edge.parent) {
            left.push(*edge)?;
        }
    }
    Ok(left)
}

/// Edges in ascending order, and beside each of them the key at which its record may lie.
#[derive(Drop)]
pub(crate) struct Going {
    pub(crate) edges: EdgeBuf,
    pub(crate) likely: Vec<usize>,
}

impl Going {
    // The key beside the edge at this place.
    fn key(&self, place: usize) -> usize {
        self.likely.get(place).copied().unwrap_or(usize::MAX)
    }
}

// The edges that go: those that are lost, and those that leave dead objects, in ascending order.
pub(crate) fn edges_gone(
    alloc: Global,
    objects: &[ObjectRecord],
    records: &Slab<EdgeRecord>,
    lost: Going,
    dead: &[Oid],
) -> Result<Going, NoMemory>
    requires ascend { AreAscendingObjects objects.now }
    requires chained { AreChained Out objects.now records.now [] }
    requires lost { AreAscendingEdges lost.edges }
    requires dead { AreAscendingOids dead.now }
    ensures { IfOk result (λ gone. AreGone records.now lost.edges dead.now gone.edges) }
{
    if dead.is_empty() {
        return Ok(lost);
    }
    let leaving = leaving_edges(alloc, objects, records, dead)?;
    if lost.edges.is_empty() {
        return Ok(leaving);
    }
    let edges = joined(alloc, lost.edges.as_slice(), leaving.edges.as_slice())?;
    let likely = likely_keys(alloc, &lost, &leaving, edges.as_slice())?;
    Ok(Going { edges, likely })
}

// The edges that leave these objects, in ascending order.
fn leaving_edges(
    alloc: Global,
    objects: &[ObjectRecord],
    records: &Slab<EdgeRecord>,
    oids: &[Oid],
) -> Result<Going, NoMemory>
    requires ascend { AreAscendingObjects objects.now }
    requires chained { AreChained Out objects.now records.now [] }
    requires oids { AreAscendingOids oids.now }
    ensures { IfOk result (λ leaving. AreLeaving records.now oids.now leaving.edges) }
{
    let mut edges = EdgeBuf::new(alloc);
    let mut likely = Vec::new(alloc);
    'oids: for oid in oids {
        push_records(objects, records, Side::Out, *oid, &mut edges, &mut likely)?;
    }
    Ok(Going { edges, likely })
}

// The keys of the edges that go, which are those of both.
fn likely_keys(
    alloc: Global,
    lost: &Going,
    leaving: &Going,
    gone: &[Edge],
) -> Result<Vec<usize>, NoMemory> {
    let mut likely = Vec::with_capacity(alloc, gone.len())?;
    let mut first: usize = 0;
    let mut second: usize = 0;
    'gone: for edge in gone {
        let mut key = usize::MAX;
        if lost.edges.get(first) == Some(edge) {
            key = lost.key(first);
            first = first.saturating_add(1);
        }
        if leaving.edges.get(second) == Some(edge) {
            key = leaving.key(second);
            second = second.saturating_add(1);
        }
        likely.push(key)?;
    }
    Ok(likely)
}
