ghost use Rattle.std.specs.Prelude.{◌≡◌, map, IfOk};

use lore_base::{NoMemory, ObjectList, OidBuf, TryCopy};
use oem_graph::{Graph, live_value, oid_at};
use std::alloc::Global;

/// The live objects, in order.
pub fn live_objects(alloc: Global, graph: &Graph) -> Result<OidBuf, NoMemory>
    ensures { IfOk result (λ oids. oids ≡ map (λ object. object.0) graph.now.graph.objects) }
{
    let mut oids = OidBuf::with_capacity(alloc, graph.objects() as usize)?;
    'places: for place in 0..graph.objects() {
        oids.push(oid_at(graph, place))?;
    }
    Ok(oids)
}

/// All objects with their values, in order.
pub(crate) fn all_objects(alloc: Global, graph: &Graph) -> Result<ObjectList, NoMemory>
    ensures { IfOk result (λ objects. objects ≡ graph.now.graph.objects) }
{
    let mut objects = ObjectList::with_capacity(alloc, graph.objects() as usize)?;
    'places: for place in 0..graph.objects() {
        let oid = oid_at(graph, place);
        let value = live_value(graph, oid).try_copy(alloc)?;
        objects.push((oid, value))?;
    }
    Ok(objects)
}
