ghost use Rattle.std.specs.Prelude.{◌≡◌, ◌↔◌, ◌⊎◌, ◌+◌, ◌<◌, ◌^◌, ℕ, length};
ghost use Rattle.std.specs.Prelude.{All, AllPairs, Contains, IfOk, OnOk};
ghost use Rattle.std.specs.List.{sum_by};
ghost use Rattle.read_costs.specs.ReadCosts.{out_reads};
ghost use Rattle.one_index.specs.Types.{Oid as TheOid, Label as TheLabel};
ghost use Rattle.one_index.specs.inside.Places.{IsAt};
ghost use Rattle.one_index.specs.inside.Linked.{IsLinkPut, IsLink, AreLinks};

use crate::places::place_of;
use index_traits::Adjacent;
use lore_base::{Edge, EdgeBuf, Label, NoMemory, Oid, Steps};
use std::alloc::Global;
use std::sync::ledger::Ledger;

// The objects, each with the number at its place.
pub(crate) fn members_of(
    alloc: Global,
    objects: &[Oid],
    numbers: &[usize],
) -> Result<Vec<(usize, Oid)>, NoMemory>
    requires { length numbers.now ≡ length objects.now }
    ensures { IfOk result (λ members. (number : ℕ) (oid : TheOid)
        → Contains members.items (number, oid) ↔ IsAt objects.now numbers.now oid number) }
{
    let mut members = Vec::with_capacity(alloc, objects.len())?;
    'objects: for (place, oid) in objects.iter().enumerate() {
        members.push((numbers[place], *oid))?;
    }
    Ok(members)
}

// Puts behind the links that of the edge, from this number, by its label, to the number of its
// child, where this is among the objects.
fn push_link(
    objects: &[Oid],
    numbers: &[usize],
    from: usize,
    edge: Edge,
    links: &mut Vec<(usize, (Label, u32))>,
) -> Result<(), NoMemory>
    requires ascend { AllPairs (λ a b. a.0 < b.0) objects.now }
    requires every { length numbers.now ≡ length objects.now }
    requires few { All (λ number. number < 2 ^ 32) numbers.now }
    ensures { OnOk result
        (IsLinkPut objects.now numbers.now from edge links.old.items links.new.items) }
{
    let Some(child) = place_of(objects, edge.child) else {
        return Ok(());
    };
    links.push((from, (edge.label, numbers[child] as u32)))?;
    Ok(())
}

// Puts behind the links those of the edges.
fn push_links(
    objects: &[Oid],
    numbers: &[usize],
    from: usize,
    edges: &[Edge],
    links: &mut Vec<(usize, (Label, u32))>,
) -> Result<(), NoMemory>
    requires ascend { AllPairs (λ a b. a.0 < b.0) objects.now }
    requires every { length numbers.now ≡ length objects.now }
    requires few { All (λ number. number < 2 ^ 32) numbers.now }
    ensures { OnOk result ((link : ℕ × (TheLabel × ℕ)) → Contains links.new.items link
        ↔ (Contains links.old.items link ⊎ IsLink objects.now numbers.now from edges.now link)) }
{
    'edges: for edge in edges {
        push_link(objects, numbers, from, *edge, links)?;
    }
    Ok(())
}

// The edges of the objects, each from the number of its parent, by its label, to that of its
// child. The edges that leave each object are read once.
pub(crate) fn links_of<A: Adjacent, L: Ledger>(
    alloc: Global,
    graph: &A,
    objects: &[Oid],
    numbers: &[usize],
    steps: &mut Steps<L>,
) -> Result<Vec<(usize, (Label, u32))>, NoMemory>
    requires ascend { AllPairs (λ a b. a.0 < b.0) objects.now }
    requires every { length numbers.now ≡ length objects.now }
    requires few { All (λ number. number < 2 ^ 32) numbers.now }
    ensures links { IfOk result (λ links.
        AreLinks (A.edges graph.now) objects.now numbers.now links.items) }
    ensures steps { OnOk result (steps.new ≡ steps.old
        + sum_by (out_reads (A.edges graph.now)) objects.now) }
{
    let mut links = Vec::new(alloc);
    let mut edges = EdgeBuf::new(alloc);
    'objects: for (place, oid) in objects.iter().enumerate() {
        edges.cut(0);
        graph.out_edges(*oid, &mut edges, steps)?;
        push_links(
            objects,
            numbers,
            numbers[place],
            edges.as_slice(),
            &mut links,
        )?;
    }
    Ok(links)
}
