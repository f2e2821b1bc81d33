ghost use Rattle.std.specs.Prelude.{◌≡◌, ◌<◌, ℕ, length, replicate, None, All, Contains, IfOk};
ghost use Rattle.block_rounds.specs.Partitions.{IsCoarse, IsNumbered};
ghost use Rattle.block_haste.specs.inside.Marking.{keys_of};
ghost use Rattle.block_haste.specs.inside.Hastening.{AreListed, IsHastening};
ghost use Rattle.block_haste.specs.inside.Listed.{AreNumbersBelow, AreOfBlocks};

use crate::graph::Graph;
use crate::hastening::{Hastening, Parting};
use crate::recounting::DenseEdge;
use crate::tally::Tally;
use block_rounds::{Partition, gathered};
use lore_lists::{Listing, NoMemory};
use std::alloc::Global;

// All numbers below a count.
fn all_below(alloc: Global, count: usize) -> Result<Vec<usize>, NoMemory>
    ensures every { IfOk result (λ nodes. (node : ℕ) → node < count → Contains nodes.items node) }
    ensures within { IfOk result (λ nodes. All (λ node. node < count) nodes.items) }
{
    let mut nodes = Vec::with_capacity(alloc, count)?;
    'nodes: for node in 0..count {
        nodes.push(node)?;
    }
    Ok(nodes)
}

// The edges as they are counted under these tags.
fn tallied(alloc: Global, edges: &[DenseEdge], tags: &[usize]) -> Result<Tally, NoMemory>
    requires { All (λ edge. edge.0 < length tags.now) edges.now }
    ensures { IfOk result (λ tally. tally ≡ keys_of edges.now tags.now) }
{
    let mut tally = Tally::new(alloc);
    'edges: for edge in edges {
        tally = tally.push((edge.2, edge.1, tags[edge.0]))?;
    }
    Ok(tally)
}

// The nodes, each with its number.
fn numbered(alloc: Global, numbers: &[usize]) -> Result<Vec<(usize, usize)>, NoMemory>
    ensures { IfOk result (λ pairs. AreNumbersBelow (length numbers.now) numbers.now pairs.items) }
{
    let mut pairs = Vec::with_capacity(alloc, numbers.len())?;
    'nodes: for (node, number) in numbers.iter().enumerate() {
        pairs.push((*number, node))?;
    }
    Ok(pairs)
}

// No marks, of so many nodes.
fn unmarked(alloc: Global, count: usize) -> Result<Vec<Option<u64>>, NoMemory>
    ensures { IfOk result (λ marks. marks.items ≡ replicate count None) }
{
    let marks = vec![in alloc; None; count]?;
    Ok(marks)
}

// The nodes of each block.
fn lists_of(alloc: Global, first: &Partition) -> Result<Vec<Listing<usize>>, NoMemory>
    requires { IsNumbered (length first.now.numbers.items) first.now.numbers.items
        first.now.heads.items }
    ensures { let numbers = first.now.numbers.items in
        IfOk result (λ lists. AreOfBlocks numbers lists.items) }
{
    let pairs = numbered(alloc, first.numbers.as_slice())?;
    let lists = gathered(alloc, first.heads.len(), pairs.as_slice());
    drop(pairs);
    lists
}

// No marks, and the nodes of each block. What is let go at each way out of a function is proved there,
// at length, so that what is made one after another is made in functions of their own.
fn marks_and_lists(
    alloc: Global,
    first: &Partition,
) -> Result<(Vec<Option<u64>>, Vec<Listing<usize>>), NoMemory>
    requires { IsNumbered (length first.now.numbers.items) first.now.numbers.items
        first.now.heads.items }
    ensures marks { let numbers = first.now.numbers.items in
        IfOk result (λ found. found.0.items ≡ replicate (length numbers) None) }
    ensures lists { let numbers = first.now.numbers.items in
        IfOk result (λ found. AreOfBlocks numbers found.1.items) }
{
    let marks = unmarked(alloc, first.numbers.len())?;
    match lists_of(alloc, first) {
        Ok(lists) => Ok((marks, lists)),
        Err(error) => {
            drop(marks);
            Err(error)
        }
    }
}

// One tag for all of so many nodes, and the edges as they are counted under it.
fn tags_and_tally(
    alloc: Global,
    graph: &Graph,
    count: usize,
) -> Result<(Vec<usize>, Tally), NoMemory>
    requires { All (λ edge. edge.0 < count) graph.now.edges.items }
    ensures tags { IfOk result (λ found. found.0.items ≡ replicate count 0) }
    ensures tally { IfOk result
        (λ found. found.1 ≡ keys_of graph.now.edges.items found.0.items) }
{
    let tags = vec![in alloc; 0usize; count]?;
    match tallied(alloc, graph.edges.as_slice(), tags.as_slice()) {
        Ok(tally) => Ok((tags, tally)),
        Err(error) => {
            drop(tags);
            Err(error)
        }
    }
}

// Before the first round all nodes have one tag, so each of them is changed.
pub(crate) fn beginning(
    alloc: Global,
    graph: &Graph,
    first: Partition,
) -> Result<Hastening, NoMemory>
    requires graph { AreListed graph.now.rows.now graph.now.edges.items graph.now.outs.items }
    requires numbered { IsNumbered (length graph.now.rows.now) first.numbers.items first.heads.items }
    requires coarse { IsCoarse graph.now.rows.now graph.now.kinds.now first.numbers.items }
    ensures { IfOk result (λ next. IsHastening graph.now.rows.now graph.now.kinds.now
        graph.now.edges.items next.tags.items next.parts.numbers.items next.tally
        next.parts.lists.items next.changed.items next.parts.marks.items) }
{
    match marks_and_lists(alloc, &first) {
        Ok((marks, lists)) => {
            let Partition { numbers, heads } = first;
            let parts = Parting {
                numbers,
                marks,
                lists,
                origins: heads,
            };
            begun(alloc, graph, parts)
        }
        Err(error) => {
            drop(first);
            Err(error)
        }
    }
}

// The same of what parts are.
fn begun(alloc: Global, graph: &Graph, parts: Parting) -> Result<Hastening, NoMemory>
    requires graph { AreListed graph.now.rows.now graph.now.edges.items graph.now.outs.items }
    requires numbered { IsNumbered (length graph.now.rows.now) parts.numbers.items
        parts.origins.items }
    requires coarse { IsCoarse graph.now.rows.now graph.now.kinds.now parts.numbers.items }
    requires marks { parts.marks.items ≡ replicate (length parts.numbers.items) None }
    requires lists { AreOfBlocks parts.numbers.items parts.lists.items }
    ensures { IfOk result (λ next. IsHastening graph.now.rows.now graph.now.kinds.now
        graph.now.edges.items next.tags.items next.parts.numbers.items next.tally
        next.parts.lists.items next.changed.items next.parts.marks.items) }
{
    match all_changed(alloc, graph, parts.numbers.len()) {
        Ok((tags, tally, changed)) => Ok(Hastening {
            tags,
            tally,
            changed,
            parts,
        }),
        Err(error) => {
            drop(parts);
            Err(error)
        }
    }
}

// One tag for all of so many nodes, the edges as they are counted under it, and all nodes.
fn all_changed(
    alloc: Global,
    graph: &Graph,
    count: usize,
) -> Result<(Vec<usize>, Tally, Vec<usize>), NoMemory>
    requires { All (λ edge. edge.0 < count) graph.now.edges.items }
    ensures tags { IfOk result (λ found. found.0.items ≡ replicate count 0) }
    ensures tally { IfOk result
        (λ found. found.1 ≡ keys_of graph.now.edges.items found.0.items) }
    ensures every { IfOk result
        (λ found. (node : ℕ) → node < count → Contains found.2.items node) }
    ensures within { IfOk result (λ found. All (λ node. node < count) found.2.items) }
{
    let changed = all_below(alloc, count)?;
    match tags_and_tally(alloc, graph, count) {
        Ok((tags, tally)) => Ok((tags, tally, changed)),
        Err(error) => {
            drop(changed);
            Err(error)
        }
    }
}
