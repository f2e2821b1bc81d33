ghost use Rattle.std.specs.Prelude.{◌≡◌, ◌↔◌, Contains, IfOk};
ghost use Rattle.value_changes.specs.Types.{Edge as TheEdge};
ghost use Rattle.value_changes.specs.inside.Pairs.{IsThere};

use crate::pairs::kept_edges;
use lore_base::{Edge, EdgeBuf, NoMemory};
use std::alloc::Global;
use strand_sort::sorted_set;

// The edges that were there before, of those that were read and the lost ones: without the added.
pub(crate) fn entered_before(
    alloc: Global,
    read: &[Edge],
    added: &[Edge],
    lost: &[Edge],
) -> Result<EdgeBuf, NoMemory>
    ensures { IfOk result (λ edges. (edge : TheEdge)
        → Contains edges edge ↔ IsThere read.now added.now lost.now edge) }
{
    if read.is_empty() {
        let only = copied_edges(alloc, lost)?;
        return Ok(only);
    }
    let new = sorted_set(alloc, added)?;
    let mut edges = kept_edges(alloc, read, new.as_slice())?;
    edges.append(lost)?;
    Ok(edges)
}

// A copy of the edges, in the same order.
fn copied_edges(alloc: Global, edges: &[Edge]) -> Result<EdgeBuf, NoMemory>
    ensures { IfOk result (λ copy. copy ≡ edges.now) }
{
    let mut copy = EdgeBuf::with_capacity(alloc, edges.len())?;
    copy.append(edges)?;
    Ok(copy)
}
