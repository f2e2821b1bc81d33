ghost use Rattle.std.specs.Prelude.{◌≡◌, ◌<◌, Some, map, length, slice_get, Contains};
ghost use Rattle.lore_base.specs.Databases.{IsLive};
ghost use Rattle.oem_graph.specs.Types.{Value as TheValue};

use crate::linked_graph::Graph;
use index_traits::ValueOf;
use lore_base::{Oid, Value};

/// The live object at this place in ascending order, counted from 0. Takes no memory and counts no
/// step.
pub fn oid_at(graph: &Graph, place: u32) -> Oid
    requires { place < length graph.now.graph.objects }
    ensures { slice_get (map (λ object. object.0) graph.now.graph.objects) place ≡ Some result }
{
    match graph.object(place) {
        Some(oid) => oid,
        None => unreachable!(),
    }
}

/// The value of the live object. Takes no memory and counts no step.
pub fn live_value(graph: &Graph, oid: Oid) -> &Value
    requires { IsLive graph.now.graph.objects oid }
    ensures { (value : TheValue) → Contains graph.now.graph.objects (oid, value)
        → result.now ≡ value }
{
    match graph.value_of(oid) {
        Some(value) => value,
        None => unreachable!(),
    }
}
