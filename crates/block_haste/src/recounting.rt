ghost use Rattle.std.specs.Prelude.{◌≡◌, ℕ, ◌<◌, List, length, All, IfOk, OnOk};
ghost use Rattle.block_haste.specs.inside.Marking.{AreEdgesOf, AreEvents, keys_of};
ghost use Rattle.block_haste.specs.inside.Recounting.{IsRecountedAt, IsCovered};

use crate::marking::Change;
use crate::tally::Tally;
use lore_lists::{Listing, NoMemory};
use std::alloc::Global;

// An edge: its parent, its label and the node that it enters.
pub(crate) type DenseEdge = (usize, u32, usize);

// What entered nodes anew.
pub(crate) type Events = Listing<(usize, Change)>;

// A tally counted anew, with what entered nodes anew by it.
#[derive(Drop)]
pub(crate) struct Recounted {
    pub(crate) tally: Tally,
    pub(crate) events: Events,
}

// Counts one edge under its parent's number.
fn recount_one(
    recounted: Recounted,
    place: usize,
    edge: DenseEdge,
    number: usize,
) -> Result<Recounted, NoMemory>
    requires { place < length recounted.tally }
    ensures { IfOk result (λ next. IsRecountedAt place edge number
        recounted.tally recounted.events next.tally next.events) }
{
    let Recounted { tally, mut events } = recounted;
    let key = tally.key(place);
    if key.2 == number {
        return Ok(Recounted { tally, events });
    }
    events.push((edge.2, (edge.1, key.2, number)))?;
    let tally = tally.set(place, (edge.2, edge.1, number))?;
    Ok(Recounted { tally, events })
}

// Counts the edges at the places under their parents' numbers.
pub(crate) fn recount(
    alloc: Global,
    edges: &[DenseEdge],
    places: &[usize],
    numbers: &[usize],
    tally: Tally,
) -> Result<Recounted, NoMemory>
    requires places { All (λ place. place < length edges.now) places.now }
    requires edges { All (λ edge. edge.0 < length numbers.now) edges.now }
    requires every { length tally ≡ length edges.now }
    ensures counted { IfOk result (λ next. (tags : List ℕ) → tally ≡ keys_of edges.now tags
        → IsCovered edges.now tags numbers.now places.now
        → next.tally ≡ keys_of edges.now numbers.now) }
    ensures events { IfOk result (λ next. (rows : List (List (ℕ × ℕ))) (tags : List ℕ)
        → AreEdgesOf rows edges.now → tally ≡ keys_of edges.now tags
        → IsCovered edges.now tags numbers.now places.now
        → AreEvents rows tags numbers.now next.events) }
{
    let mut recounted = Recounted {
        tally,
        events: Listing::new(alloc),
    };
    'places: for place in places {
        let edge = edges[*place];
        recounted = recount_one(recounted, *place, edge, numbers[edge.0])?;
    }
    Ok(recounted)
}
