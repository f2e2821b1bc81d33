ghost use Rattle.std.specs.Prelude.{◌≡◌, length, IfOk};
ghost use Rattle.block_rounds.specs.Partitions.{AreWithin, AreBlocks, IsNumbered, IsInOrder};
ghost use Rattle.block_rounds.specs.Partitions.{IsRefining};

use crate::graph::Graph;
use crate::hastening::hastened;
use crate::starting::beginning;
use block_rounds::{Partition, Row, first_round, levels_of, one_block, settled};
use lore_lists::NoMemory;
use std::alloc::Global;

/// The partition of backward bisimulation, its blocks numbered in the order of their first nodes,
/// which are their heads. Each node has the labels and parents of the edges that enter it for its
/// row; only nodes of one kind are in one block.
pub fn refined(alloc: Global, rows: &[Row], kinds: &[usize]) -> Result<Partition, NoMemory>
    requires within { AreWithin rows.now }
    requires every { length kinds.now ≡ length rows.now }
    ensures blocks { IfOk result
        (λ partition. AreBlocks rows.now kinds.now partition.numbers.items) }
    ensures numbered { IfOk result
        (λ partition. IsNumbered (length rows.now) partition.numbers.items partition.heads.items) }
    ensures order { IfOk result
        (λ partition. IsInOrder partition.numbers.items partition.heads.items) }
{
    let whole = one_block(alloc, rows.len())?;
    let first = first_round(alloc, rows, kinds, whole)?;
    let hastened = hasten(alloc, rows, kinds, first)?;
    let numbers = settled(alloc, rows, kinds, hastened)?;
    let partition = levels_of(alloc, numbers.as_slice())?;
    Ok(partition)
}

// Hastening rounds from a coarse partition on: most of the way to the end, in less time.
fn hasten(
    alloc: Global,
    rows: &[Row],
    kinds: &[usize],
    first: Partition,
) -> Result<Partition, NoMemory>
    requires within { AreWithin rows.now }
    requires refining { IsRefining rows.now kinds.now first.numbers.items first.heads.items }
    ensures { IfOk result
        (λ next. IsRefining rows.now kinds.now next.numbers.items next.heads.items) }
{
    let graph = Graph::new(alloc, rows, kinds)?;
    let state = beginning(alloc, &graph, first)?;
    let numbers = hastened(alloc, &graph, state)?;
    let next = levels_of(alloc, numbers.as_slice())?;
    Ok(next)
}
