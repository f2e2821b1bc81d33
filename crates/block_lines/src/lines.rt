ghost use Rattle.std.specs.Prelude.{◌≡◌, ◌<◌, length, map, Some, slice_get, IfOk};
ghost use Rattle.one_index.specs.Blocks.{NamedGraph, AreBlocksOf};
ghost use Rattle.one_index.specs.declared.blocks.Block.{Block as TheBlock};
ghost use Rattle.block_lines.specs.BlockLines.{AreBlockLines, first_in};
ghost use Rattle.block_lines.specs.BlockLines.{block_line, block_count_line};

use itoa::Buffer;
use lore_base::{NoMemory, OemText, Oid, TextList};
use one_index::{Block, Blocks};
use std::alloc::Global;

/// The lines of blocks, without line ends: for each block, in the order of their numbers, `block`,
/// its least object and how many objects it has; then `blocks` and the number of blocks.
pub fn block_lines(alloc: Global, blocks: &Blocks) -> Result<TextList, NoMemory>
    ensures { IfOk result (λ lines. (graph : NamedGraph)
        → AreBlocksOf graph blocks.now → AreBlockLines graph lines) }
{
    let mut lines = lines_of(alloc, blocks)?;
    lines.push(last_line(alloc, blocks.len())?)?;
    Ok(lines)
}

// A line for each block.
fn lines_of(alloc: Global, blocks: &Blocks) -> Result<TextList, NoMemory>
    ensures { IfOk result (λ lines. lines ≡ map block_line blocks.now) }
{
    let mut lines = TextList::new(alloc);
    'numbers: for number in 0..blocks.len() {
        lines.push(line_at(alloc, blocks, number)?)?;
    }
    Ok(lines)
}

// The line of the block with the number.
fn line_at(alloc: Global, blocks: &Blocks, number: u32) -> Result<OemText, NoMemory>
    requires { number < length blocks.now }
    ensures { IfOk result (λ line. (block : TheBlock)
        → slice_get blocks.now number ≡ Some block → line ≡ block_line block) }
{
    match blocks.get(number) {
        Some(block) => line_of(alloc, block),
        None => unreachable!(),
    }
}

// The line of a block.
fn line_of(alloc: Global, block: &Block) -> Result<OemText, NoMemory>
    ensures { IfOk result (λ line. line ≡ block_line block.now) }
{
    let first = first_of(block.members.as_slice());
    let mut line = Vec::from_slice(alloc, b"block &")?;
    line.extend_from_slice(Buffer::new().format(first.0).as_bytes())?;
    line.extend_from_slice(b" ")?;
    line.extend_from_slice(Buffer::new().format(block.members.len()).as_bytes())?;
    OemText::from_vec(alloc, line)
}

// The first of the objects.
fn first_of(oids: &[Oid]) -> Oid
    ensures { result ≡ first_in oids.now }
{
    match oids.get(0) {
        Some(oid) => *oid,
        None => Oid(0),
    }
}

// The line with the number of blocks.
fn last_line(alloc: Global, count: u32) -> Result<OemText, NoMemory>
    ensures { IfOk result (λ line. line ≡ block_count_line count) }
{
    let mut line = Vec::from_slice(alloc, b"blocks ")?;
    line.extend_from_slice(Buffer::new().format(count).as_bytes())?;
    OemText::from_vec(alloc, line)
}
