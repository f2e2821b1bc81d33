ghost use Rattle.std.specs.Prelude.{◌≡◌, ◌+◌, ◌<◌, ◌≤◌, List, AllPairs, IfOk, OnOk};
ghost use Rattle.std.specs.List.{sum_by};
ghost use Rattle.read_costs.specs.ReadCosts.{in_reads};
ghost use Rattle.one_index.specs.Types.{Edge as TheEdge};
ghost use Rattle.one_index.specs.inside.Rows.{IsParentPut, IsRow, IsRowOf, AreRows};
ghost use Rattle.one_index.specs.inside.Parted.{AreSameEdges};

use crate::places::place_of;
use block_rounds::Row;
use index_traits::Links;
use lore_base::{Edge, EdgeBuf, NoMemory, Oid, Steps};
use std::alloc::Global;
use std::sync::ledger::Ledger;

// Puts behind the row the label of the edge with the place of its parent, where this is among the
// objects.
fn push_parent(objects: &[Oid], edge: Edge, row: &mut Row) -> Result<(), NoMemory>
    requires { AllPairs (λ a b. a.0 < b.0) objects.now }
    ensures { OnOk result (IsParentPut objects.now edge row.old row.new) }
{
    let Some(parent) = place_of(objects, edge.parent) else {
        return Ok(());
    };
    row.push((edge.label.0, parent))
}

// The labels of the edges, each with the place of the parent, where it is among the objects.
fn row_of(alloc: Global, objects: &[Oid], edges: &[Edge]) -> Result<Row, NoMemory>
    requires { AllPairs (λ a b. a.0 < b.0) objects.now }
    ensures { IfOk result (IsRowOf objects.now edges.now) }
{
    let mut row = Row::with_capacity(alloc, edges.len())?;
    'edges: for edge in edges {
        push_parent(objects, *edge, &mut row)?;
    }
    Ok(row)
}

// The row of the object: the labels of the edges that enter it, with the places of their parents.
fn read_row<K: Links, L: Ledger>(
    alloc: Global,
    links: &K,
    objects: &[Oid],
    oid: Oid,
    steps: &mut Steps<L>,
) -> Result<Row, NoMemory>
    requires { AllPairs (λ a b. a.0 < b.0) objects.now }
    ensures row { IfOk result (IsRow (K.edges links.now) objects.now oid) }
    ensures steps { OnOk result ((edges : List TheEdge)
        → AreSameEdges (K.edges links.now) edges → steps.new ≤ steps.old + in_reads edges oid) }
{
    let mut edges = EdgeBuf::new(alloc);
    links.parents(oid, None, &mut edges, steps)?;
    let row = row_of(alloc, objects, edges.as_slice())?;
    Ok(row)
}

// The rows of all objects. The edges that enter each are read once.
pub(crate) fn read_rows<K: Links, L: Ledger>(
    alloc: Global,
    links: &K,
    objects: &[Oid],
    steps: &mut Steps<L>,
) -> Result<Vec<Row>, NoMemory>
    requires { AllPairs (λ a b. a.0 < b.0) objects.now }
    ensures rows { IfOk result (λ rows.
        AreRows (K.edges links.now) objects.now objects.now rows.items) }
    ensures steps { OnOk result ((edges : List TheEdge) → AreSameEdges (K.edges links.now) edges
        → steps.new ≤ steps.old + sum_by (in_reads edges) objects.now) }
{
    let mut rows = Vec::with_capacity(alloc, objects.len())?;
    'objects: for oid in objects {
        rows.push(read_row(alloc, links, objects, *oid, steps)?)?;
    }
    Ok(rows)
}
