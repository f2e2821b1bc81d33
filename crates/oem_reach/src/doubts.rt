ghost use Rattle.std.specs.Prelude.{◌≡◌, ◌<◌, ◌↔◌, ◌++◌, map, filter, AllPairs, Contains, IfOk, OnOk};
ghost use Rattle.lore_base.specs.Databases.{AreAscendingEdges};
ghost use Rattle.oem_reach.specs.Types.{Oid as TheOid, Edge as TheEdge};
ghost use Rattle.oem_reach.specs.inside.Doubts.{IsNamedThen, IsStaying, AreLeft};
ghost use Rattle.oem_reach.specs.inside.Doubts.{is_listed, outer_children, inner_of};

use crate::oid_sets::{is_among, without};
use lore_base::{Changes, Edge, EdgeBuf, Names, NoMemory, ObjectList, Oid, OidBuf};
use object_search::{SortedEdges, reached_from};
use std::alloc::Global;

// Appends the objects without their values.
fn push_objects(oids: &mut OidBuf, objects: &ObjectList) -> Result<(), NoMemory>
    ensures { OnOk result (oids.new ≡ oids.old ++ map (λ object. object.0) objects.now) }
{
    'objects: for object in objects.as_slice() {
        oids.push(object.0)?;
    }
    Ok(())
}

// The objects in doubt, ascending: those below cuts and the made ones.
pub(crate) fn objects_in_doubt(below: OidBuf, made: &ObjectList) -> Result<OidBuf, NoMemory>
    ensures ascend { IfOk result (AllPairs (λ a b. a.0 < b.0)) }
    ensures members { IfOk result (λ oids. (oid : TheOid) → Contains oids oid
        ↔ Contains (below ++ map (λ object. object.0) made.now) oid) }
{
    let mut oids = below;
    push_objects(&mut oids, made)?;
    oids.sort_set();
    Ok(oids)
}

// The objects that are named then, perhaps some more than once.
pub(crate) fn objects_named(names: &Names, changes: &Changes) -> Result<OidBuf, NoMemory>
    ensures { IfOk result (λ oids. (oid : TheOid) → Contains oids oid
        ↔ IsNamedThen names.now changes.now oid) }
{
    let then = names.changed_by(changes)?;
    then.objects()
}

// The edges, and behind them those of the fresh ones that enter one of the objects.
pub(crate) fn with_fresh(edges: EdgeBuf, fresh: &[Edge], oids: &[Oid]) -> Result<EdgeBuf, NoMemory>
    requires { AllPairs (λ a b. a.0 < b.0) oids.now }
    ensures { IfOk result (λ all.
        all ≡ edges ++ filter (λ edge. is_listed oids.now edge.child) fresh.now) }
{
    let mut all = edges;
    'fresh: for edge in fresh {
        if is_among(oids, edge.child) {
            all.push(*edge)?;
        }
    }
    Ok(all)
}

// Those of the objects that are named, and the children of the edges that come from none of them.
fn held_objects(
    alloc: Global,
    oids: &[Oid],
    named: &[Oid],
    edges: &[Edge],
) -> Result<OidBuf, NoMemory>
    requires { AllPairs (λ a b. a.0 < b.0) oids.now }
    ensures { IfOk result (λ held.
        held ≡ filter (is_listed oids.now) named.now ++ outer_children oids.now edges.now) }
{
    let mut held = OidBuf::new(alloc);
    'named: for oid in named {
        if is_among(oids, *oid) {
            held.push(*oid)?;
        }
    }
    'edges: for edge in edges {
        if !is_among(oids, edge.parent) {
            held.push(edge.child)?;
        }
    }
    Ok(held)
}

// Those of the edges that come from one of the objects, ascending.
fn inner_edges(alloc: Global, oids: &[Oid], edges: &[Edge]) -> Result<EdgeBuf, NoMemory>
    requires { AllPairs (λ a b. a.0 < b.0) oids.now }
    ensures ascend { IfOk result AreAscendingEdges }
    ensures members { IfOk result (λ inner. (edge : TheEdge)
        → Contains inner edge ↔ Contains (inner_of oids.now edges.now) edge) }
{
    let mut inner = EdgeBuf::new(alloc);
    'edges: for edge in edges {
        if is_among(oids, edge.parent) {
            inner.push(*edge)?;
        }
    }
    inner.sort_set();
    Ok(inner)
}

// Those of the objects that no walk reaches from one that is named, or that one of the edges enters
// from outside. The edges are all that enter the objects. Nothing is read.
pub(crate) fn unheld_objects(
    alloc: Global,
    oids: &[Oid],
    named: &[Oid],
    edges: &[Edge],
) -> Result<OidBuf, NoMemory>
    requires { AllPairs (λ a b. a.0 < b.0) oids.now }
    ensures { IfOk result (λ left. ((edge : TheEdge) → Contains edges.now edge
        → Contains oids.now edge.child)
        → AreLeft oids.now (IsStaying oids.now named.now edges.now) left) }
{
    let held = held_objects(alloc, oids, named, edges)?;
    let inner = inner_edges(alloc, oids, edges)?;
    let arcs = SortedEdges::new(inner.as_slice());
    let staying = reached_from(alloc, &arcs, held.as_slice(), &mut ())?;
    without(alloc, oids, staying.as_slice())
}
