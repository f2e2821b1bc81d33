ghost use Rattle.std.specs.Prelude.{◌≡◌, ◌+◌, map, sum_by, IfOk};
ghost use Rattle.lore_base.specs.TargetSets.{ListsInOrder};
ghost use Rattle.object_search.specs.Reached.{IsWalkedFrom};
ghost use Rattle.object_search.specs.inside.Searches.{met_at};

use crate::children::Children;
use crate::met::Met;
use crate::out_arcs::OutArcs;
use graph_search::{Counter, search};
use lore_base::{EdgeBuf, NoMemory, Oid, OidBuf};
use std::alloc::Global;

// The objects as places of a search.
fn places_of(alloc: Global, oids: &[Oid]) -> Result<Vec<(Oid, Met)>, NoMemory>
    ensures { IfOk result (λ places. places.items ≡ map met_at oids.now) }
{
    let mut places = Vec::with_capacity(alloc, oids.len())?;
    'oids: for oid in oids {
        places.push((*oid, Met(true)))?;
    }
    Ok(places)
}

// The objects of the places.
fn objects_of(alloc: Global, places: &[(Oid, Met)]) -> Result<OidBuf, NoMemory>
    ensures { IfOk result (λ oids. oids ≡ map (λ place. place.0) places.now) }
{
    let mut oids = OidBuf::with_capacity(alloc, places.len())?;
    'places: for place in places {
        oids.push(place.0)?;
    }
    Ok(oids)
}

/// The objects that some walk reaches from one of the starts, ascending, the starts among them. The
/// edges that leave each of them are read once.
pub fn reached_from<A: OutArcs<C>, C: Counter>(
    alloc: Global,
    arcs: &A,
    starts: &[Oid],
    counter: &mut C,
) -> Result<OidBuf, NoMemory>
    ensures reached { IfOk result (ListsInOrder (IsWalkedFrom (A.edges arcs.now) starts.now)) }
    ensures cost { IfOk result (λ oids. C.count counter.new
        ≡ C.count counter.old + sum_by (A.cost arcs.now) oids) }
{
    let mut children = Children {
        arcs,
        edges: EdgeBuf::new(alloc),
    };
    let places = places_of(alloc, starts)?;
    let met = search(alloc, &mut children, places.as_slice(), counter)?;
    let mut oids = objects_of(alloc, met.as_slice())?;
    oids.sort_set();
    Ok(oids)
}
