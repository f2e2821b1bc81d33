ghost use Rattle.std.specs.Prelude.{◌≡◌, length, map, IfOk};
ghost use Rattle.lore_base.specs.Databases.{AreAscendingEdges};
ghost use Rattle.edge_lists.specs.Commits.{ArePlaces};
ghost use Rattle.edge_layers.specs.inside.Places.{ArePlaced};
ghost use Rattle.edge_layers.specs.declared.places.Placed.{Placed as ThePlaced};

use crate::turned::turned;
use edge_lists::Side;
use key_sort::{Key, set_by_keys};
use lore_base::{Edge, Listing, NoMemory};
use std::alloc::Global;

// An edge that is turned round, and its place among others.
#[derive(Clone, Copy, Debug, PartialEq, Eq, PartialOrd, Ord)]
pub(crate) struct Placed {
    pub(crate) edge: Edge,
    pub(crate) place: usize,
}

// The key of its child, which comes first.
struct ByChild;

impl Key<Placed> for ByChild {
    ghost key_of = { λ placed. placed.edge.parent.0 };

    fn key(placed: &Placed) -> u32 {
        placed.edge.parent.0
    }
}

// The key of its label.
struct ByLabel;

impl Key<Placed> for ByLabel {
    ghost key_of = { λ placed. placed.edge.label.0 };

    fn key(placed: &Placed) -> u32 {
        placed.edge.label.0
    }
}

/// The places of ascending edges in the order of child, label and parent. Edges come by parent and
/// label, and the numbers of labels and of objects are mostly close together: so keys put them in
/// order.
pub fn places_by_child(alloc: Global, edges: &[Edge]) -> Result<Vec<usize>, NoMemory>
    requires { AreAscendingEdges edges.now }
    ensures { IfOk result (λ places. ArePlaces (length edges.now) places.items) }
{
    let placed = placed_edges(alloc, edges)?;
    let sorted = set_by_keys::<Placed, ByLabel, ByChild>(alloc, placed)?;
    let places = places_of(alloc, sorted.as_slice())?;
    Ok(places)
}

// The edges turned round, each with its place.
fn placed_edges(alloc: Global, edges: &[Edge]) -> Result<Listing<Placed>, NoMemory>
    ensures { IfOk result (ArePlaced edges.now) }
{
    let mut placed = Listing::with_capacity(alloc, edges.len())?;
    'edges: for (place, edge) in edges.iter().enumerate() {
        placed.push(Placed {
            edge: turned(Side::In, edge),
            place,
        })?;
    }
    Ok(placed)
}

// The places alone, in the same order.
fn places_of(alloc: Global, placed: &[Placed]) -> Result<Vec<usize>, NoMemory>
    ensures { IfOk result
        (λ places. places.items ≡ map (λ (p : ThePlaced). p.place) placed.now) }
{
    let mut places = Vec::with_capacity(alloc, placed.len())?;
    'placed: for one in placed {
        places.push(one.place)?;
    }
    Ok(places)
}
