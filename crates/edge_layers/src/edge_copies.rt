ghost use Rattle.std.specs.Prelude.{◌≡◌, IfOk};

use lore_base::{Edge, EdgeBuf, NoMemory};
use std::alloc::Global;

/// A copy of the edges, in the same order.
pub fn copied_edges(alloc: Global, edges: &[Edge]) -> Result<EdgeBuf, NoMemory>
    ensures { IfOk result (λ copy. copy ≡ edges.now) }
{
    let mut copy = EdgeBuf::with_capacity(alloc, edges.len())?;
    copy.append(edges)?;
    Ok(copy)
}
