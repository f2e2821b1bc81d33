ghost use Rattle.std.specs.Prelude.{◌≡◌, map, IfOk};
ghost use Rattle.link_index.specs.inside.LinkEdges.{AreSortedLinks, link_at};

use crate::link::{ByChild, ByLabel, Link};
use key_sort::set_by_keys;
use lore_base::{Edge, EdgeBuf, Listing, NoMemory};
use std::alloc::Global;

// The links of these edges in ascending order, each once. Edges come by parent and label, and the
// numbers of labels and of objects are mostly close together: so keys put links in order.
pub(crate) fn sorted_links(edges: &EdgeBuf) -> Result<Vec<Link>, NoMemory>
    ensures { IfOk result (λ links. AreSortedLinks edges.now links.items) }
{
    let alloc = edges.allocator();
    let links = links_of(alloc, edges.as_slice())?;
    let sorted = set_by_keys::<Link, ByLabel, ByChild>(alloc, links)?;
    Ok(sorted.into_items())
}

// The links of these edges.
fn links_of(alloc: Global, edges: &[Edge]) -> Result<Listing<Link>, NoMemory>
    ensures { IfOk result (λ links. links ≡ map link_at edges.now) }
{
    let mut links = Listing::with_capacity(alloc, edges.len())?;
    'edges: for edge in edges {
        links.push(Link::of(edge))?;
    }
    Ok(links)
}
