ghost use Rattle.std.specs.Prelude.{nat_eq, length, IfOk};
ghost use Rattle.indexmap.specs.IndexMap.{get};
ghost use Rattle.block_rounds.specs.Partitions.{IsNumbered, IsInOrder, AreSameBlocks};
ghost use Rattle.block_rounds.specs.inside.Levels.{IsLevel};

use crate::partition::Partition;
use indexmap::IndexMap;
use lore_lists::NoMemory;
use std::alloc::Global;

// The level of the number: where it has none yet, the next one, with the node for its first.
fn level_of(
    known: &mut IndexMap<usize, usize>,
    firsts: &mut Vec<usize>,
    node: usize,
    number: usize,
) -> Result<usize, NoMemory>
    ensures { IfOk result (IsLevel node number (get nat_eq known.old) (get nat_eq known.new)
        firsts.old.items firsts.new.items) }
{
    match known.get(&number) {
        Some(level) => Ok(*level),
        None => {
            let level = firsts.len();
            firsts.push(node)?;
            known.insert(number, level)?;
            Ok(level)
        }
    }
}

/// The same blocks, numbered in the order of their first nodes, which are their heads.
pub fn levels_of(alloc: Global, numbers: &[usize]) -> Result<Partition, NoMemory>
    ensures same { IfOk result (λ next. AreSameBlocks numbers.now next.numbers.items) }
    ensures numbered { IfOk result
        (λ next. IsNumbered (length numbers.now) next.numbers.items next.heads.items) }
    ensures order { IfOk result (λ next. IsInOrder next.numbers.items next.heads.items) }
{
    let mut known = IndexMap::new(alloc);
    let mut heads = Vec::new(alloc);
    let mut levels = Vec::with_capacity(alloc, numbers.len())?;
    'nodes: for (node, number) in numbers.iter().enumerate() {
        let level = level_of(&mut known, &mut heads, node, *number)?;
        levels.push(level)?;
    }
    Ok(Partition {
        numbers: levels,
        heads,
    })
}
