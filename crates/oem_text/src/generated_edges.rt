ghost use Rattle.std.specs.Prelude.{◌≡◌, ◌+◌, ◌*◌, ◌%◌, ◌≤◌, ◌<◌, ◌^◌, ℕ, List, ◌++◌, length, map};
ghost use Rattle.std.specs.Prelude.{flat_map, codes, IfOk, OnOk};
ghost use Rattle.oem_labels.specs.Labels.{label_in};
ghost use Rattle.oem_text.specs.Types.{FEWEST_PERSONS, MOST_PERSONS};
ghost use Rattle.oem_text.specs.Layouts.{edge_from};
ghost use Rattle.oem_text.specs.Generated as spec;
ghost use Rattle.oem_text.specs.Generated.{generated_arcs, generated_labels, numbers_from};

use lore_base::{Edge, EdgeBuf, Label, NoMemory, Oid};
use std::alloc::Global;

// The edges of so many persons, where the root has the number `next`. Where all labels are new, the
// edges ascend. The labels are those of `person`, `id`, `name`, `age`, `boss`, `club`, `member`,
// `leader`, `ring` and `next`.
pub(crate) fn edges_of(
    alloc: Global,
    count: u32,
    next: u64,
    labels: &[Label],
) -> Result<EdgeBuf, NoMemory>
    requires count { (FEWEST_PERSONS ≤ count) × (count ≤ MOST_PERSONS) }
    requires labels { length labels.now ≡ 10 }
    requires numbers { next + (4 * count + 111) ≤ 2 ^ 32 }
    ensures { IfOk result (λ edges. (table : List (List ℕ))
        → labels.now ≡ map (label_in table) generated_labels
        → edges ≡ map (edge_from next table) (generated_arcs count)) }
{
    let mut edges = EdgeBuf::with_capacity(alloc, 6 * count as usize + 120)?;
    let clubs = next + 4 * u64::from(count) + 1;
    let links = clubs + 10;
    put_persons(next, count, labels[0], &mut edges)?;
    put_clubs(next, clubs, labels[5], &mut edges)?;
    edges.push(edge(next, labels[8], links))?;
    put_edges_of_persons(next, count, labels, &mut edges)?;
    put_edges_of_clubs(next, count, labels, &mut edges)?;
    put_links(links, labels[9], &mut edges)?;
    Ok(edges)
}

// An edge between objects with these numbers.
fn edge(parent: u64, label: Label, child: u64) -> Edge
    requires parent { parent < 2 ^ 32 }
    requires child { child < 2 ^ 32 }
    ensures parent { result.parent.0 ≡ parent }
    ensures label { result.label ≡ label }
    ensures child { result.child.0 ≡ child }
{
    Edge {
        parent: Oid(parent as u32),
        label,
        child: Oid(child as u32),
    }
}

// The number of person i, where the root has the number `next`.
fn person(next: u64, i: u32) -> u64
    requires some { 1 ≤ i }
    requires few { i ≤ MOST_PERSONS }
    requires number { next < 2 ^ 32 }
    ensures { result ≡ next + spec.person_place i }
{
    next + 4 * u64::from(i) - 3
}

// The number of club c, where the root has the number `next`.
fn club(next: u64, count: u32, c: u32) -> u64
    requires few { count ≤ MOST_PERSONS }
    requires digit { c < 10 }
    requires number { next < 2 ^ 32 }
    ensures { result ≡ next + spec.club_place count c }
{
    next + 4 * u64::from(count) + 1 + u64::from(c)
}

fn put_persons(next: u64, count: u32, label: Label, edges: &mut EdgeBuf) -> Result<(), NoMemory>
    requires few { count ≤ MOST_PERSONS }
    requires numbers { next + (4 * count + 111) ≤ 2 ^ 32 }
    ensures { OnOk result ((table : List (List ℕ)) → label ≡ label_in table (codes "person")
        → edges.new ≡ edges.old
        ++ map (edge_from next table) (map spec.person_arc (numbers_from 1 count))) }
{
    'persons: for place in 0..count {
        edges.push(edge(next, label, person(next, place + 1)))?;
    }
    Ok(())
}

// The edges that leave the persons.
fn put_edges_of_persons(
    next: u64,
    count: u32,
    labels: &[Label],
    edges: &mut EdgeBuf,
) -> Result<(), NoMemory>
    requires few { count ≤ MOST_PERSONS }
    requires labels { length labels.now ≡ 10 }
    requires numbers { next + (4 * count + 111) ≤ 2 ^ 32 }
    ensures { OnOk result ((table : List (List ℕ))
        → labels.now ≡ map (label_in table) generated_labels
        → edges.new ≡ edges.old
        ++ map (edge_from next table) (flat_map spec.arcs_of_person (numbers_from 1 count))) }
{
    'persons: for place in 0..count {
        put_edges_of_person(next, place + 1, labels, edges)?;
    }
    Ok(())
}

// The edges of person i: to its atoms and to its boss.
fn put_edges_of_person(
    next: u64,
    i: u32,
    labels: &[Label],
    edges: &mut EdgeBuf,
) -> Result<(), NoMemory>
    requires some { 1 ≤ i }
    requires few { i ≤ MOST_PERSONS }
    requires labels { length labels.now ≡ 10 }
    requires numbers { next + (4 * i + 1) ≤ 2 ^ 32 }
    ensures { OnOk result ((table : List (List ℕ))
        → labels.now ≡ map (label_in table) generated_labels
        → edges.new ≡ edges.old ++ map (edge_from next table) (spec.arcs_of_person i)) }
{
    let here = person(next, i);
    edges.push(edge(here, labels[1], here + 1))?;
    edges.push(edge(here, labels[2], here + 2))?;
    edges.push(edge(here, labels[3], here + 3))?;
    if i >= 2 {
        edges.push(edge(here, labels[4], person(next, i / 2)))?;
    }
    Ok(())
}

// The edges of the root to the clubs, where `clubs` is the number of the first.
fn put_clubs(next: u64, clubs: u64, label: Label, edges: &mut EdgeBuf) -> Result<(), NoMemory>
    requires numbers { clubs + 10 ≤ 2 ^ 32 }
    requires root { next < clubs }
    ensures { OnOk result ((table : List (List ℕ)) (count : ℕ)
        → label ≡ label_in table (codes "club") → clubs ≡ next + (4 * count + 1)
        → edges.new ≡ edges.old
        ++ map (edge_from next table) (map (spec.club_arc count) (numbers_from 0 10))) }
{
    'clubs: for c in 0..10u64 {
        edges.push(edge(next, label, clubs + c))?;
    }
    Ok(())
}

// The edges that leave the clubs.
fn put_edges_of_clubs(
    next: u64,
    count: u32,
    labels: &[Label],
    edges: &mut EdgeBuf,
) -> Result<(), NoMemory>
    requires few { count ≤ MOST_PERSONS }
    requires labels { length labels.now ≡ 10 }
    requires numbers { next + (4 * count + 111) ≤ 2 ^ 32 }
    ensures { OnOk result ((table : List (List ℕ))
        → labels.now ≡ map (label_in table) generated_labels
        → edges.new ≡ edges.old
        ++ map (edge_from next table) (flat_map (spec.arcs_of_club count) (numbers_from 0 10))) }
{
    'clubs: for c in 0..10u32 {
        put_edges_of_club(next, count, c, labels, edges)?;
    }
    Ok(())
}

// The edges of club c: to its members and to its leader.
fn put_edges_of_club(
    next: u64,
    count: u32,
    c: u32,
    labels: &[Label],
    edges: &mut EdgeBuf,
) -> Result<(), NoMemory>
    requires few { count ≤ MOST_PERSONS }
    requires digit { c < 10 }
    requires labels { length labels.now ≡ 10 }
    requires numbers { next + (4 * count + 111) ≤ 2 ^ 32 }
    ensures { OnOk result ((table : List (List ℕ))
        → labels.now ≡ map (label_in table) generated_labels
        → edges.new ≡ edges.old ++ map (edge_from next table) (spec.arcs_of_club count c)) }
{
    put_members(next, count, c, labels[6], edges)?;
    edges.push(edge(club(next, count, c), labels[7], person(next, 10 + c)))?;
    Ok(())
}

// The edges of club c to its members.
fn put_members(
    next: u64,
    count: u32,
    c: u32,
    label: Label,
    edges: &mut EdgeBuf,
) -> Result<(), NoMemory>
    requires few { count ≤ MOST_PERSONS }
    requires digit { c < 10 }
    requires numbers { next + (4 * count + 111) ≤ 2 ^ 32 }
    ensures { OnOk result ((table : List (List ℕ)) → label ≡ label_in table (codes "member")
        → edges.new ≡ edges.old
        ++ map (edge_from next table) (map (spec.member_arc count c) (spec.club_members count c))) }
{
    let parent = club(next, count, c);
    let mut i = first_member(c);
    'members: while i <= count {
        edges.push(edge(parent, label, person(next, i)))?;
        i += 10;
    }
    Ok(())
}

// The first person whose number ends in the digit c.
fn first_member(c: u32) -> u32
    requires digit { c < 10 }
    ensures digit { result % 10 ≡ c }
    ensures some { 1 ≤ result }
    ensures first { result ≤ 10 }
{
    if c == 0 { 10 } else { c }
}

// The ring of links, where `links` is the number of the first.
fn put_links(links: u64, label: Label, edges: &mut EdgeBuf) -> Result<(), NoMemory>
    requires numbers { links + 100 ≤ 2 ^ 32 }
    ensures { OnOk result ((table : List (List ℕ)) (next count : ℕ)
        → label ≡ label_in table (codes "next") → links ≡ next + (4 * count + 11)
        → edges.new ≡ edges.old
        ++ map (edge_from next table) (map (spec.next_arc count) (numbers_from 0 100))) }
{
    'links: for j in 0..100u64 {
        edges.push(edge(links + j, label, links + (j + 1) % 100))?;
    }
    Ok(())
}
