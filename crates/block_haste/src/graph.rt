ghost use Rattle.std.specs.Prelude.{◌≡◌, length, IfOk, OnOk};
ghost use Rattle.block_rounds.specs.Partitions.{AreWithin};
ghost use Rattle.block_haste.specs.inside.Hastening.{AreListed};
ghost use Rattle.block_haste.specs.inside.Listed.{AreRowsListed, AreRowListed, AreOutPairs};

use crate::recounting::DenseEdge;
use block_rounds::{Row, gathered};
use lore_lists::{Listing, NoMemory};
use std::alloc::Global;

// A graph with its edges as one list, and for each node the places of those that leave it.
#[derive(Drop)]
pub(crate) struct Graph<'a> {
    pub(crate) rows: &'a [Row],
    pub(crate) kinds: &'a [usize],
    pub(crate) edges: Vec<DenseEdge>,
    pub(crate) outs: Vec<Listing<usize>>,
}

// Puts the edges that enter the node behind the others.
fn push_row(edges: &mut Vec<DenseEdge>, node: usize, row: &[(u32, usize)]) -> Result<(), NoMemory>
    ensures { OnOk result (AreRowListed node row.now edges.old.items edges.new.items) }
{
    'entries: for entry in row {
        edges.push((entry.1, entry.0, node))?;
    }
    Ok(())
}

// The edges of all rows.
fn edges_of(alloc: Global, rows: &[Row]) -> Result<Vec<DenseEdge>, NoMemory>
    ensures { IfOk result (λ edges. AreRowsListed rows.now edges.items) }
{
    let mut edges = Vec::new(alloc);
    'rows: for (node, row) in rows.iter().enumerate() {
        push_row(&mut edges, node, row.as_slice())?;
    }
    Ok(edges)
}

// The places of the edges, each with the edge's parent.
fn out_pairs(alloc: Global, edges: &[DenseEdge]) -> Result<Vec<(usize, usize)>, NoMemory>
    ensures { IfOk result (λ pairs. AreOutPairs edges.now pairs.items) }
{
    let mut pairs = Vec::with_capacity(alloc, edges.len())?;
    'edges: for (place, edge) in edges.iter().enumerate() {
        pairs.push((edge.0, place))?;
    }
    Ok(pairs)
}

impl<'a> Graph<'a> {
    // The graph of these rows and kinds.
    pub(crate) fn new(
        alloc: Global,
        rows: &'a [Row],
        kinds: &'a [usize],
    ) -> Result<Graph<'a>, NoMemory>
        requires { AreWithin rows.now }
        ensures rows { IfOk result (λ graph. graph.rows.now ≡ rows.now) }
        ensures kinds { IfOk result (λ graph. graph.kinds.now ≡ kinds.now) }
        ensures listed { IfOk result
            (λ graph. AreListed rows.now graph.edges.items graph.outs.items) }
    {
        let edges = edges_of(alloc, rows)?;
        let pairs = out_pairs(alloc, edges.as_slice())?;
        let outs = gathered(alloc, rows.len(), pairs.as_slice())?;
        Ok(Graph {
            rows,
            kinds,
            edges,
            outs,
        })
    }
}
