ghost use Rattle.std.specs.Prelude.{◌≡◌, length, Contains, IfOk};
ghost use Rattle.lore_base.specs.TargetSets.{ListsInOrder};
ghost use Rattle.one_index.specs.inside.Filled.{IsRowInOrder, IsFilled, AreFilled};

use crate::blocks::Block;
use lore_base::{Label, Listing, NoMemory, Oid, OidBuf};
use oem_set::OidSet;
use std::alloc::Global;

// The set of these objects.
fn set_of(alloc: Global, oids: &[Oid]) -> Result<OidSet, NoMemory>
    ensures { IfOk result (ListsInOrder (Contains oids.now)) }
{
    let mut set = OidBuf::with_capacity(alloc, oids.len())?;
    set.append(oids)?;
    set.sort_set();
    Ok(OidSet::from_ascending(set))
}

// The edges in order, each once.
fn row_in_order(alloc: Global, edges: &[(Label, u32)]) -> Result<Listing<(Label, u32)>, NoMemory>
    ensures { IfOk result (IsRowInOrder edges.now) }
{
    let mut row = Listing::with_capacity(alloc, edges.len())?;
    row.append(edges)?;
    row.sort_set();
    Ok(row)
}

// The block with these objects for its members, and these edges.
fn block_from(alloc: Global, oids: &[Oid], edges: &[(Label, u32)]) -> Result<Block, NoMemory>
    ensures { IfOk result (IsFilled oids.now edges.now) }
{
    let members = set_of(alloc, oids)?;
    let edges = row_in_order(alloc, edges)?;
    Ok(Block { members, edges })
}

// The blocks that have these objects for their members, and these edges.
pub(crate) fn blocks_from(
    alloc: Global,
    members: &[OidBuf],
    edges: &[Listing<(Label, u32)>],
) -> Result<Vec<Block>, NoMemory>
    requires { length edges.now ≡ length members.now }
    ensures { IfOk result (λ blocks.
        AreFilled (length members.now) members.now edges.now blocks.items) }
{
    let mut blocks = Vec::with_capacity(alloc, members.len())?;
    'members: for (number, oids) in members.iter().enumerate() {
        let block = block_from(alloc, oids.as_slice(), edges[number].as_slice())?;
        blocks.push(block)?;
    }
    Ok(blocks)
}
