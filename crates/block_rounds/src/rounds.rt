ghost use Rattle.std.specs.Prelude.{◌≡◌, ◌≤◌, length, replicate, IfOk, OnOk};
ghost use Rattle.block_rounds.specs.Partitions.{AreWithin, AreBlocks, IsNumbered, IsRefining};

use crate::partition::Partition;
use crate::renumbering::{marks, renumbered};
use crate::signing::{Row, signatures};
use lore_lists::NoMemory;
use std::alloc::Global;

/// All nodes in one block, if there are any.
pub fn one_block(alloc: Global, count: usize) -> Result<Partition, NoMemory>
    ensures numbers { IfOk result (λ partition. partition.numbers.items ≡ replicate count 0) }
    ensures numbered { IfOk result (λ partition.
        IsNumbered count partition.numbers.items partition.heads.items) }
{
    let numbers = vec![in alloc; 0usize; count]?;
    let mut heads = Vec::new(alloc);
    if count > 0 {
        heads.push(0usize)?;
    }
    Ok(Partition { numbers, heads })
}

/// One whole round: kinds, and the labels of the edges that enter nodes, part the one block.
pub fn first_round(
    alloc: Global,
    rows: &[Row],
    kinds: &[usize],
    whole: Partition,
) -> Result<Partition, NoMemory>
    requires within { AreWithin rows.now }
    requires every { length kinds.now ≡ length rows.now }
    requires refining { IsRefining rows.now kinds.now whole.numbers.items whole.heads.items }
    ensures { IfOk result
        (λ next. IsRefining rows.now kinds.now next.numbers.items next.heads.items) }
{
    let Partition { numbers, mut heads } = whole;
    let next = whole_round(alloc, rows, kinds, numbers.as_slice(), &mut heads)?;
    Ok(Partition {
        numbers: next,
        heads,
    })
}

/// Whole rounds from a coarse partition to the end. Each but the last one makes a block more.
pub fn settled(
    alloc: Global,
    rows: &[Row],
    kinds: &[usize],
    first: Partition,
) -> Result<Vec<usize>, NoMemory>
    requires within { AreWithin rows.now }
    requires every { length kinds.now ≡ length rows.now }
    requires refining { IsRefining rows.now kinds.now first.numbers.items first.heads.items }
    ensures blocks { IfOk result (λ numbers. AreBlocks rows.now kinds.now numbers.items) }
    ensures every { IfOk result (λ numbers. length numbers.items ≡ length rows.now) }
{
    let Partition {
        mut numbers,
        mut heads,
    } = first;
    'rounds: loop {
        let count = heads.len();
        let next = whole_round(alloc, rows, kinds, numbers.as_slice(), &mut heads)?;
        if heads.len() <= count {
            return Ok(numbers);
        }
        numbers = next;
    }
}

// One whole round: the nodes that differ from the head of their block leave it, those that differ
// alike together. Where none does, the blocks are those of bisimulation.
fn whole_round(
    alloc: Global,
    rows: &[Row],
    kinds: &[usize],
    numbers: &[usize],
    heads: &mut Vec<usize>,
) -> Result<Vec<usize>, NoMemory>
    requires within { AreWithin rows.now }
    requires every { length kinds.now ≡ length rows.now }
    requires refining { IsRefining rows.now kinds.now numbers.now heads.old.items }
    ensures refining { IfOk result
        (λ next. IsRefining rows.now kinds.now next.items heads.new.items) }
    ensures grown { OnOk result (length heads.old.items ≤ length heads.new.items) }
    ensures settled { OnOk result (length heads.new.items ≤ length heads.old.items
        → AreBlocks rows.now kinds.now numbers.now) }
{
    let signed = signatures(alloc, rows, numbers)?;
    let marked = marks(alloc, kinds, signed.as_slice(), numbers, heads.as_slice())?;
    let next = renumbered(alloc, numbers, marked.as_slice(), heads)?;
    Ok(next)
}
