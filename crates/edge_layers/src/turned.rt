ghost use Rattle.std.specs.Prelude.{◌≡◌, map, IfOk};
ghost use Rattle.edge_layers.specs.Turned.{turn};

use edge_lists::Side;
use lore_base::{Edge, EdgeBuf, NoMemory};
use std::alloc::Global;

// The edge with the object in whose list it stands for its parent: turned round for in lists. So
// turned, the edges of both kinds of lists are in the order of edges.
pub(crate) fn turned(side: Side, edge: &Edge) -> Edge
    ensures { result ≡ turn side edge.now }
{
    match side {
        Side::Out => *edge,
        Side::In => Edge {
            parent: edge.child,
            label: edge.label,
            child: edge.parent,
        },
    }
}

// The edges so turned, in the same order.
pub(crate) fn turned_all(alloc: Global, side: Side, edges: &[Edge]) -> Result<EdgeBuf, NoMemory>
    ensures { IfOk result (λ all. all ≡ map (turn side) edges.now) }
{
    let mut all = EdgeBuf::with_capacity(alloc, edges.len())?;
    'edges: for edge in edges {
        all.push(turned(side, edge))?;
    }
    Ok(all)
}
