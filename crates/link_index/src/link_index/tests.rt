ghost use Rattle.std.specs.Prelude.{◌≡◌, ◌<◌, ◌↔◌, IsTrue, IfOk, All, Contains};
ghost use Rattle.lore_base.specs.Databases.{AreAscendingEdges};

use super::LinkIndex;
use crate::heads::Head;
use crate::link::Link;
use crate::records::LinkRecord;
use index_traits::Links;
use lore_base::{Edge, EdgeBuf, Label, NoMemory, Oid, Steps};
use std::alloc::Global;
use std::marker::Brand;
use std::sync::ledger::{Blank, Ledger};
use std::test::Fail;

// Parent, label and child of an edge.
type Parts = (u32, u32, u32);

// Edges to three children, in the order in which they are put in. Two have the same ends.
const EDGES: [Parts; 7] = [
    (3, 0, 5),
    (9, 1, 7),
    (2, 1, 5),
    (4, 0, 5),
    (3, 1, 5),
    (8, 0, 6),
    (2, 0, 7),
];

// One that goes; and one that comes, before all others in the order.
const GONE: Parts = (2, 1, 5);

const COME: Parts = (1, 0, 5);

// The edges to each child then, ascending by label and parent.
const THEN: [Parts; 7] = [
    (1, 0, 5),
    (3, 0, 5),
    (4, 0, 5),
    (3, 1, 5),
    (8, 0, 6),
    (2, 0, 7),
    (9, 1, 7),
];

fn edge(parts: Parts) -> Edge {
    let (parent, label, child) = parts;
    Edge {
        parent: Oid(parent),
        label: Label(label),
        child: Oid(child),
    }
}

fn edges(alloc: Global, list: &[Parts]) -> Result<EdgeBuf, NoMemory> {
    let mut edges = EdgeBuf::new(alloc);
    for parts in list {
        edges.push(edge(*parts))?;
    }
    Ok(edges)
}

// Whether the index has the edge.
fn has<L: Ledger>(
    alloc: Global,
    index: &LinkIndex,
    edge: &Edge,
    steps: &mut Steps<L>,
) -> Result<bool, NoMemory>
    ensures { IfOk result (λ answer. IsTrue answer ↔ Contains index.now.links edge.now) }
{
    let mut found = EdgeBuf::new(alloc);
    index.parents(edge.child, None, &mut found, steps)?;
    Ok(found.as_slice().contains(edge))
}

// Takes out edges that the index has, and puts in one that it hasn't.
fn change(index: &mut LinkIndex, removed: &EdgeBuf, come: Edge) -> Result<(), NoMemory>
    requires ascend { AreAscendingEdges removed.now }
    requires kept { All (Contains index.old.links) removed.now }
    requires new { ¬ Contains index.old.links come }
{
    let mut added = EdgeBuf::new(removed.allocator());
    added.push(come)?;
    let plan = index.prepare(removed, &added)?;
    index.reserve(&plan)?;
    index.commit(plan);
    Ok(())
}

// Puts an edge in, if the index hasn't got it.
fn put<L: Ledger>(
    alloc: Global,
    index: &mut LinkIndex,
    come: Edge,
    steps: &mut Steps<L>,
) -> Result<(), NoMemory> {
    let there = has(alloc, index, &come, steps)?;
    if there {
        return Ok(());
    }
    change(index, &EdgeBuf::new(alloc), come)
}

// Puts an edge in and takes one out, if the index has the second alone.
fn swap<L: Ledger>(
    alloc: Global,
    index: &mut LinkIndex,
    gone: Edge,
    come: Edge,
    steps: &mut Steps<L>,
) -> Result<(), NoMemory> {
    let there = has(alloc, index, &come, steps)?;
    if there {
        return Ok(());
    }
    let held = has(alloc, index, &gone, steps)?;
    if !held {
        return Ok(());
    }
    let mut removed = EdgeBuf::new(alloc);
    removed.push(gone)?;
    change(index, &removed, come)
}

// Where the first record of a child is.
fn first(heads: &[Head], wanted: Oid) -> Option<usize> {
    for Head { child, first } in heads {
        if *child == wanted {
            return *first;
        }
    }
    None
}

fn record_at(records: &[LinkRecord], place: Option<usize>) -> Option<&LinkRecord> {
    records.get(place?)
}

// The edges of the child's records, from its head on.
fn followed(alloc: Global, index: &LinkIndex, child: Oid) -> Result<EdgeBuf, NoMemory> {
    let LinkIndex {
        records,
        heads,
        free: _,
    } = index;
    let mut edges = EdgeBuf::new(alloc);
    let mut place = first(heads.as_slice(), child);
    for _ in 0..records.len() {
        let Some(LinkRecord { edge, after }) = record_at(records.as_slice(), place) else {
            return Ok(edges);
        };
        if let Some(link) = edge {
            edges.push(link.edge())?;
        }
        place = *after;
    }
    Ok(edges)
}

/// An index behind a change, with what stood in its records before, and what it answers.
#[derive(Drop)]
struct Told {
    before: Vec<Option<Link>>,
    index: LinkIndex,
    given: EdgeBuf,
    led: EdgeBuf,
}

// The links of the records, by their places.
fn links_by_place(alloc: Global, index: &LinkIndex) -> Result<Vec<Option<Link>>, NoMemory> {
    let mut links = Vec::new(alloc);
    for record in index.records.as_slice() {
        links.push(record.edge)?;
    }
    Ok(links)
}

// Whether each link but the one that goes stands where it stood.
fn stays(before: &[Option<Link>], after: &[LinkRecord], gone: Link) -> bool {
    for (was, LinkRecord { edge, after: _ }) in before.iter().zip(after) {
        if *was != *edge && *was != Some(gone) {
            return false;
        }
    }
    before.len() <= after.len()
}

fn changed<L: Ledger>(alloc: Global, blank: Blank) -> Result<Told, NoMemory>
    requires name { blank.name ≡ L.name }
    requires parts { blank.parts ≡ L.parts }
    requires some { 0 < blank.parts }
{
    let mut steps = Steps::<L>::new(blank);
    let mut index = LinkIndex::new(alloc);
    for parts in EDGES {
        put(alloc, &mut index, edge(parts), &mut steps)?;
    }
    let before = links_by_place(alloc, &index)?;
    swap(alloc, &mut index, edge(GONE), edge(COME), &mut steps)?;
    let (mut given, mut led) = (EdgeBuf::new(alloc), EdgeBuf::new(alloc));
    for child in [Oid(4), Oid(5), Oid(6), Oid(7)] {
        index.parents(child, None, &mut given, &mut steps)?;
        led.append(followed(alloc, &index, child)?.as_slice())?;
    }
    Ok(Told {
        before,
        index,
        given,
        led,
    })
}

// The patterns name all fields of an index and of the records in it, so that one more isn't read. The
// links lead to the edges that `parents` gives, and what stays of a change stays at its place.
#[test]
fn stated_fields(rt: HostRuntime) -> Result<(), Fail> {
    let Told {
        before,
        index,
        given,
        led,
    } = changed::<Brand>(rt.alloc(), Blank::new(1))?;
    assert_eq!(rt; given.as_slice(), edges(rt.alloc(), &THEN)?.as_slice());
    assert_eq!(rt; led.as_slice(), given.as_slice());
    let LinkIndex {
        records,
        heads,
        free,
    } = index;
    assert!(rt; stays(before.as_slice(), records.as_slice(), Link::of(&edge(GONE))));
    assert_eq!(rt; free, Some(2));
    let mut firsts = Vec::new(rt.alloc());
    for Head { child, first } in heads {
        firsts.push((child.0, first))?;
    }
    assert_eq!(rt;
        firsts.as_slice(),
        [(5, Some(7)), (6, Some(5)), (7, Some(6))].as_slice()
    );
    Ok(())
}
