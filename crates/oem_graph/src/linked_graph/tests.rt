ghost use Rattle.std.specs.Prelude.{◌≡◌, ◌<◌, [], ◌∷◌, IfOk};
ghost use Rattle.oem_graph.specs.Plans.{graph_then};
ghost use Rattle.oem_graph.specs.inside.Samples.{numbered, sample, sample_objects, edges_before, edges_after};

use super::Graph;
use crate::graph_plan::GraphPlan;
use edge_layers::{RunStarts, copied_edges, places_by_child};
use edge_lists::{EdgeRecord, ObjectRecord, Side};
use index_traits::Adjacent;
use lore_base::{
    Changes, Delta, Edge, EdgeBuf, Label, Names, NoMemory, ObjectList, Oid, OidBuf, Steps,
    TextList, Value,
};
use slab::Slab;
use std::alloc::Global;
use std::marker::Brand;
use std::sync::ledger::{Blank, Ledger};
use std::test::Fail;

// The edge of these numbers.
fn edge(parent: u32, label: u32, child: u32) -> Edge
    ensures { result ≡ numbered parent label child }
{
    Edge {
        parent: Oid(parent),
        label: Label(label),
        child: Oid(child),
    }
}

// Two objects without names.
fn objects(alloc: Global) -> Result<ObjectList, NoMemory>
    ensures { IfOk result (λ objects. objects ≡ sample_objects) }
{
    let mut objects = ObjectList::new(alloc);
    objects.push((Oid(1), Value::Complex))?;
    objects.push((Oid(2), Value::Complex))?;
    Ok(objects)
}

// Three edges between them.
fn edges(alloc: Global) -> Result<EdgeBuf, NoMemory>
    ensures { IfOk result (λ edges. edges ≡ edges_before) }
{
    let mut edges = EdgeBuf::new(alloc);
    edges.push(edge(1, 1, 1))?;
    edges.push(edge(1, 2, 2))?;
    edges.push(edge(2, 0, 1))?;
    Ok(edges)
}

// The graph of both.
fn linked(alloc: Global) -> Result<Graph, NoMemory>
    ensures { IfOk result (λ graph. graph.graph ≡ sample edges_before) }
{
    let changes = Changes {
        made: objects(alloc)?,
        values: ObjectList::new(alloc),
        added: edges(alloc)?,
        removed: EdgeBuf::new(alloc),
        named: Names::new(alloc),
        unnamed: TextList::new(alloc),
        labels: TextList::new(alloc),
    };
    let graph = Graph::restored(alloc, &changes, 3)?;
    Ok(graph)
}

// The plan that takes the second edge away and brings one that is lower than all.
fn planned(alloc: Global) -> Result<GraphPlan, NoMemory>
    ensures { IfOk result (λ plan. graph_then (sample edges_before) plan ≡ sample edges_after) }
{
    let gone = copied_edges(alloc, &[edge(1, 2, 2)])?;
    let come = copied_edges(alloc, &[edge(1, 0, 2)])?;
    let by_child = places_by_child(alloc, come.as_slice())?;
    let keys = Vec::with_capacity(alloc, come.len())?;
    Ok(GraphPlan {
        names: Names::new(alloc),
        dead: OidBuf::new(alloc),
        delta: Delta {
            names_gone: Names::new(alloc),
            names_come: Names::new(alloc),
            objects_gone: ObjectList::new(alloc),
            objects_come: ObjectList::new(alloc),
            edges_gone: gone,
            edges_come: come,
        },
        next: 3,
        likely: Vec::new(alloc),
        by_child,
        keys,
        starts: RunStarts::none(alloc),
    })
}

// Puts that plan in place.
fn change(alloc: Global, graph: &mut Graph) -> Result<(), NoMemory>
    requires { graph.old.graph ≡ sample edges_before }
{
    let plan = planned(alloc)?;
    graph.reserve(&plan)?;
    graph.commit(plan);
    Ok(())
}

// The head of an object's list.
fn head(objects: &[ObjectRecord], side: Side, oid: Oid) -> Option<usize> {
    for object in objects {
        if object.oid == oid {
            return match side {
                Side::Out => object.first_out.key(),
                Side::In => object.first_in.key(),
            };
        }
    }
    None
}

// The keys and the edges of an object's list, found along its links from the head on.
fn listed(alloc: Global, graph: &Graph, side: Side, oid: Oid) -> Result<Vec<(usize, Edge)>, Fail> {
    let mut found = Vec::new(alloc);
    let mut next = head(graph.objects.as_slice(), side, oid);
    for _step in 0..graph.records.len() {
        let Some(key) = next else {
            return Ok(found);
        };
        let Some(record) = graph.records.get(key) else {
            return Err(Fail::new("a link leads nowhere"));
        };
        let EdgeRecord {
            edge,
            out_before: _,
            out_after,
            in_before: _,
            in_after,
        } = record;
        found.push((key, *edge))?;
        next = match side {
            Side::Out => out_after.key(),
            Side::In => in_after.key(),
        };
    }
    Ok(found)
}

// The same of both objects.
fn all_listed(alloc: Global, graph: &Graph, side: Side) -> Result<Vec<(usize, Edge)>, Fail> {
    let mut found = listed(alloc, graph, side, Oid(1))?;
    let second = listed(alloc, graph, side, Oid(2))?;
    found.extend_from_slice(second.as_slice())?;
    Ok(found)
}

// The edges that leave both objects, as readers are given them.
fn told<L: Ledger>(alloc: Global, graph: &Graph, blank: Blank) -> Result<EdgeBuf, NoMemory>
    requires name { blank.name ≡ L.name }
    requires parts { blank.parts ≡ L.parts }
    requires some { 0 < blank.parts }
{
    let mut steps = Steps::<L>::new(blank);
    let mut buf = EdgeBuf::new(alloc);
    graph.out_edges(Oid(1), &mut buf, &mut steps)?;
    graph.out_edges(Oid(2), &mut buf, &mut steps)?;
    Ok(buf)
}

// Whether these are the edges, in the same order.
fn are_edges(rows: &[(usize, Edge)], edges: &[Edge]) -> bool {
    for (place, row) in rows.iter().enumerate() {
        if edges.get(place) != Some(&row.1) {
            return false;
        }
    }
    rows.len() == edges.len()
}

// Whether the keys are the places of the edges in their order.
fn are_keys_in_order(rows: &[(usize, Edge)]) -> bool {
    for (place, row) in rows.iter().enumerate() {
        if row.0 != place {
            return false;
        }
    }
    true
}

// Whether each edge that stands in both has one key.
fn keep_keys(before: &[(usize, Edge)], after: &[(usize, Edge)]) -> bool {
    for old in before {
        for new in after {
            if old.1 == new.1 && old.0 != new.0 {
                return false;
            }
        }
    }
    true
}

// The patterns name all fields of a graph and of the records in it, so that one more isn't read.
fn count_parts(graph: Graph) -> (usize, usize) {
    let Graph {
        names,
        next,
        objects,
        records,
    } = graph;
    let _read = (names.len(), next);
    let mut lists = 0_usize;
    for object in objects {
        let ObjectRecord {
            oid: _,
            value: _,
            first_out,
            first_in,
        } = object;
        if first_out.key().is_some() && first_in.key().is_some() {
            lists = lists.saturating_add(1);
        }
    }
    let held: Slab<EdgeRecord> = records;
    (lists, held.len())
}

// A graph that is restored has its records in the order of its edges. Then one edge goes and another
// one comes first in the order: the others keep their keys, and the links lead along the lists that
// readers are given.
#[test]
fn stated_fields(rt: HostRuntime) -> Result<(), Fail> {
    let alloc = rt.alloc();
    let mut graph = linked(alloc)?;
    let before = all_listed(alloc, &graph, Side::Out)?;
    change(alloc, &mut graph)?;
    let out = all_listed(alloc, &graph, Side::Out)?;
    let entering = all_listed(alloc, &graph, Side::In)?;
    let edges = told::<Brand>(alloc, &graph, Blank::new(1))?;
    assert_eq!(rt; before.len(), 3);
    assert!(rt; are_keys_in_order(before.as_slice()));
    assert!(rt; keep_keys(before.as_slice(), out.as_slice()));
    assert!(rt; are_edges(out.as_slice(), edges.as_slice()));
    assert!(rt;
        are_edges(
            out.as_slice(),
            &[edge(1, 0, 2), edge(1, 1, 1), edge(2, 0, 1)]
        )
    );
    assert!(rt;
        are_edges(
            entering.as_slice(),
            &[edge(2, 0, 1), edge(1, 1, 1), edge(1, 0, 2)]
        )
    );
    assert_eq!(rt; count_parts(graph), (2, 3));
    Ok(())
}
