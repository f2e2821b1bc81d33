ghost use Rattle.std.specs.Prelude.{◌≡◌, ◌<◌};

use crate::sets::set_of;
use dataguide::{Guide, GuideDelta, GuideFault, Origin};
use index_traits::NaiveEdges;
use lore_base::{Edge, EdgeBuf, Label, Names, NoMemory, OemText, Oid, Steps};
use std::alloc::Global;
use std::marker::Brand;
use std::sync::ledger::{Blank, Ledger};
use std::test::Fail;

// Names with their objects, and edges as parent, label and child.
type Shape = (&'static [(&'static str, u32)], &'static [[u32; 3]]);

// Two restaurants (0), each with a name (1) and a price (2). Objects are numbered otherwise than
// paths are ordered.
const RESTAURANTS: Shape = (
    &[("Guide", 8)],
    &[
        [8, 0, 9],
        [8, 0, 3],
        [9, 1, 7],
        [9, 2, 2],
        [3, 1, 6],
        [3, 2, 5],
    ],
);

// A ring of two objects, and a third one that hangs on it.
const RING: Shape = (&[("Guide", 1)], &[[1, 0, 2], [2, 0, 1], [2, 1, 3]]);

// Two names of one object, and an edge that no path reaches.
const TWO_NAMES: Shape = (&[("Home", 4), ("Guide", 4)], &[[1, 0, 4], [4, 1, 4]]);

// Short paths from two names come before longer ones, and those of a lower name before others.
const TWO_TREES: Shape = (
    &[("Movies", 1), ("Guide", 2)],
    &[[1, 0, 3], [2, 1, 4], [2, 0, 5], [5, 0, 6]],
);

// Each set of the first object with some of the two others is led to.
const ALL_SUBSETS: Shape = (
    &[("Q", 1)],
    &[[1, 0, 1], [1, 1, 1], [1, 0, 2], [2, 0, 3], [2, 1, 3]],
);

// Two sets have equal hashes.
const EQUAL_HASHES: Shape = (&[("Guide", 1)], &[[1, 0, 5], [1, 1, 0], [1, 1, 5]]);

// Edges without a name.
const NAMELESS: Shape = (&[], &[[1, 0, 2], [2, 0, 1]]);

fn names_of(alloc: Global, bound: &[(&str, u32)]) -> Result<Names, NoMemory> {
    let mut names = Names::new(alloc);
    for (name, object) in bound {
        names.put(OemText::from_bytes(alloc, name.as_bytes())?, Oid(*object))?;
    }
    Ok(names)
}

fn graph_of(alloc: Global, numbers: &[[u32; 3]]) -> Result<NaiveEdges, NoMemory> {
    let mut edges = EdgeBuf::new(alloc);
    for [parent, label, child] in numbers {
        edges.push(Edge {
            parent: Oid(*parent),
            label: Label(*label),
            child: Oid(*child),
        })?;
    }
    edges.sort_set();
    Ok(NaiveEdges::new(edges))
}

fn built<L: Ledger>(
    alloc: Global,
    shape: Shape,
    limit: u32,
    blank: Blank,
) -> Result<Guide, GuideFault>
    requires name { blank.name ≡ L.name }
    requires parts { blank.parts ≡ L.parts }
    requires some { 0 < blank.parts }
{
    let graph = graph_of(alloc, shape.1)?;
    let names = names_of(alloc, shape.0)?;
    Guide::build(alloc, &graph, &names, limit, &mut Steps::<L>::new(blank))
}

// The guide of the shape, with at most so many nodes.
fn guide_within(alloc: Global, shape: Shape, limit: u32) -> Result<Guide, GuideFault> {
    built::<Brand>(alloc, shape, limit, Blank::new(1))
}

// Whether the guide has so many nodes; none where it would have more than the limit.
fn has_nodes(alloc: Global, shape: Shape, limit: u32, wanted: Option<u32>) -> bool {
    match guide_within(alloc, shape, limit) {
        Ok(guide) => wanted == Some(guide.len()),
        Err(fault) => fault == GuideFault::Nodes && wanted.is_none(),
    }
}

const COUNTS: [(Shape, u32, Option<u32>); 12] = [
    (ALL_SUBSETS, 4, Some(4)),
    (ALL_SUBSETS, 3, None),
    (ALL_SUBSETS, u32::MAX, Some(4)),
    (RESTAURANTS, 4, Some(4)),
    (RESTAURANTS, 3, None),
    (RESTAURANTS, 0, None),
    (RING, 9, Some(3)),
    (TWO_NAMES, 1, Some(1)),
    (TWO_TREES, 9, Some(6)),
    (TWO_TREES, 1, None),
    (EQUAL_HASHES, 9, Some(3)),
    (NAMELESS, 0, Some(0)),
];

#[test]
fn more_sets_than_the_limit_are_refused(rt: HostRuntime) -> Result<(), Fail> {
    for (shape, limit, wanted) in COUNTS {
        if !has_nodes(rt.alloc(), shape, limit, wanted) {
            return Err(Fail::new("a guide has other nodes, or is not refused"));
        }
    }
    Ok(())
}

// The number of the node with the set of these objects, in the shape's guide.
fn node_in(alloc: Global, shape: Shape, members: &[u32]) -> Result<Option<u32>, GuideFault> {
    let guide = guide_within(alloc, shape, 9)?;
    let set = set_of(alloc, members)?;
    match guide.find_set(&set) {
        Some(node) => Ok(Some(node.0)),
        None => Ok(None),
    }
}

// A shape, a set of objects, and the node that has it.
const NODES: [(Shape, &[u32], Option<u32>); 14] = [
    (RESTAURANTS, &[8], Some(0)),
    (RESTAURANTS, &[9, 3], Some(1)),
    (RESTAURANTS, &[7, 6], Some(2)),
    (RESTAURANTS, &[2, 5], Some(3)),
    (RESTAURANTS, &[9], None),
    (RESTAURANTS, &[3, 8, 9], None),
    (RESTAURANTS, &[], None),
    (TWO_NAMES, &[1], None),
    (ALL_SUBSETS, &[3, 1], Some(3)),
    (ALL_SUBSETS, &[2, 3], None),
    (EQUAL_HASHES, &[5], Some(1)),
    (EQUAL_HASHES, &[0, 5], Some(2)),
    (EQUAL_HASHES, &[0], None),
    (NAMELESS, &[], None),
];

#[test]
fn sets_are_those_of_these_nodes(rt: HostRuntime) -> Result<(), Fail> {
    for (shape, members, wanted) in NODES {
        if node_in(rt.alloc(), shape, members)? != wanted {
            return Err(Fail::new("another node has a set, or none"));
        }
    }
    Ok(())
}

// The place of a node that is planned, with an edge to itself.
fn planned(alloc: Global) -> Result<u32, NoMemory> {
    let mut delta = GuideDelta::new(alloc);
    let place = delta.node(Origin::Fresh(set_of(alloc, &[1, 2])?))?;
    delta.edge(place, Label(7), place)?;
    Ok(place)
}

#[test]
fn an_edge_is_planned(rt: HostRuntime) -> Result<(), Fail> {
    if planned(rt.alloc())? == 0 {
        Ok(())
    } else {
        Err(Fail::new("the first node has another place"))
    }
}
