ghost use Rattle.std.specs.Prelude.{◌≡◌, [], ◌∷◌, ◌++◌, map, filter, IfOk, OnOk, OnErr};
ghost use Rattle.lore_base.specs.Lists.{Extends, ExtendsBy};
ghost use Rattle.lore_base.specs.Databases.{AreAscendingEdges};
ghost use Rattle.lore_base.specs.Walks.{out_of};
ghost use Rattle.edge_layers.specs.Types.{Out, In};
ghost use Rattle.edge_lists.specs.Objects.{AreAscendingObjects};
ghost use Rattle.edge_lists.specs.Chains.{AreChained};
ghost use Rattle.edge_layers.specs.Turned as spec;
ghost use Rattle.edge_layers.specs.Turned.{turn, has_label, IsLayeredList, ListsLayered};

use crate::edge_runs::run_of;
use crate::edge_sets::layered_run;
use crate::turned::{turned, turned_all};
use edge_lists::{EdgeRecord, ObjectRecord, Side, has_list, push_list};
use lore_base::{Edge, EdgeBuf, Label, NoMemory, Oid};
use slab::Slab;
use std::alloc::Global;

// The edges of the object's list, turned as the side has them, without those that are lost and with
// those that are fresh. Takes time by these lists, wherever else edges are.
fn layered_list(
    alloc: Global,
    objects: &[ObjectRecord],
    records: &Slab<EdgeRecord>,
    side: Side,
    owner: Oid,
    lost: &[Edge],
    fresh: &[Edge],
) -> Result<EdgeBuf, NoMemory>
    requires ascend { AreAscendingObjects objects.now }
    requires chained { AreChained side objects.now records.now [] }
    requires lost { AreAscendingEdges lost.now }
    requires fresh { AreAscendingEdges fresh.now }
    ensures { IfOk result (IsLayeredList side records.now lost.now fresh.now owner) }
{
    let mut kept = EdgeBuf::new(alloc);
    push_list(objects, records, side, owner, &mut kept)?;
    let kept = turned_all(alloc, side, kept.as_slice())?;
    let lost = run_of(lost, owner);
    let fresh = run_of(fresh, owner);
    let list = layered_run(alloc, kept.as_slice(), lost, fresh)?;
    Ok(list)
}

/// Puts the edges that leave the object behind those of `buf`, without those that are lost and with
/// those that are fresh. The new ones are the object's own among the fresh.
pub fn push_leaving(
    objects: &[ObjectRecord],
    records: &Slab<EdgeRecord>,
    lost: &[Edge],
    fresh: &[Edge],
    new: &[Edge],
    oid: Oid,
    buf: &mut EdgeBuf,
) -> Result<(), NoMemory>
    requires ascend { AreAscendingObjects objects.now }
    requires chained { AreChained Out objects.now records.now [] }
    requires lost { AreAscendingEdges lost.now }
    requires fresh { AreAscendingEdges fresh.now }
    requires own { new.now ≡ out_of oid fresh.now }
    ensures ok { OnOk result
        (ExtendsBy (IsLayeredList Out records.now lost.now fresh.now oid) buf.old buf.new) }
    ensures err { OnErr result (Extends buf.old buf.new) }
{
    if !has_list(objects, Side::Out, oid) {
        append_run(buf, new)?;
        return Ok(());
    }
    push_listed(objects, records, lost, fresh, new, oid, buf)
}

// The same where the object has a list. It stands apart, so that the call for a new object stays
// short.
fn push_listed(
    objects: &[ObjectRecord],
    records: &Slab<EdgeRecord>,
    lost: &[Edge],
    fresh: &[Edge],
    new: &[Edge],
    oid: Oid,
    buf: &mut EdgeBuf,
) -> Result<(), NoMemory>
    requires ascend { AreAscendingObjects objects.now }
    requires chained { AreChained Out objects.now records.now [] }
    requires lost { AreAscendingEdges lost.now }
    requires fresh { AreAscendingEdges fresh.now }
    requires own { new.now ≡ out_of oid fresh.now }
    ensures ok { OnOk result
        (ExtendsBy (IsLayeredList Out records.now lost.now fresh.now oid) buf.old buf.new) }
    ensures err { OnErr result (Extends buf.old buf.new) }
{
    let gone = run_of(lost, oid);
    if new.is_empty() && gone.is_empty() {
        push_list(objects, records, Side::Out, oid, buf)?;
        return Ok(());
    }
    let alloc = buf.allocator();
    let list = layered_list(alloc, objects, records, Side::Out, oid, lost, fresh)?;
    buf.append(list.as_slice())?;
    Ok(())
}

// Puts a run of edges behind those of `buf`; most often it has none.
fn append_run(buf: &mut EdgeBuf, run: &[Edge]) -> Result<(), NoMemory>
    ensures ok { OnOk result (buf.new ≡ buf.old ++ run.now) }
    ensures err { OnErr result (Extends buf.old buf.new) }
{
    if run.is_empty() {
        return Ok(());
    }
    buf.append(run)?;
    Ok(())
}

// Puts the edges that enter the object, with the label where one is given, behind those of `buf`,
// without those that are lost and with those that are fresh. Both of these lists are turned round.
pub(crate) fn push_entering(
    objects: &[ObjectRecord],
    records: &Slab<EdgeRecord>,
    lost: &[Edge],
    fresh: &[Edge],
    oid: Oid,
    given: Option<Label>,
    buf: &mut EdgeBuf,
) -> Result<(), NoMemory>
    requires ascend { AreAscendingObjects objects.now }
    requires chained { AreChained In objects.now records.now [] }
    requires lost { AreAscendingEdges lost.now }
    requires fresh { AreAscendingEdges fresh.now }
    ensures ok { OnOk result
        (ExtendsBy (ListsLayered records.now lost.now fresh.now oid given) buf.old buf.new) }
    ensures err { OnErr result (Extends buf.old buf.new) }
{
    let new = run_of(fresh, oid);
    if !has_list(objects, Side::In, oid) {
        push_turned(buf, new, given)?;
        return Ok(());
    }
    if given.is_none() && new.is_empty() && run_of(lost, oid).is_empty() {
        push_list(objects, records, Side::In, oid, buf)?;
        return Ok(());
    }
    let alloc = buf.allocator();
    let list = layered_list(alloc, objects, records, Side::In, oid, lost, fresh)?;
    push_turned(buf, list.as_slice(), given)?;
    Ok(())
}

// Puts edges that are turned round behind those of `buf`, as they were, those with the label that may
// be given.
fn push_turned(buf: &mut EdgeBuf, edges: &[Edge], given: Option<Label>) -> Result<(), NoMemory>
    ensures ok { OnOk result
        (buf.new ≡ buf.old ++ map (turn In) (filter (has_label given) edges.now)) }
    ensures err { OnErr result (Extends buf.old buf.new) }
{
    'edges: for edge in edges {
        push_given(buf, edge, given)?;
    }
    Ok(())
}

// Puts an edge that is turned round behind those of `buf`, as it was, where it has the label that may
// be given.
fn push_given(buf: &mut EdgeBuf, edge: &Edge, given: Option<Label>) -> Result<(), NoMemory>
    ensures ok { OnOk result
        (buf.new ≡ buf.old ++ map (turn In) (filter (has_label given) (edge.now ∷ []))) }
    ensures err { OnErr result (buf.new ≡ buf.old) }
{
    if !has_label(edge, given) {
        return Ok(());
    }
    buf.push(turned(Side::In, edge))?;
    Ok(())
}

// Whether the edge has the label, where one is given.
fn has_label(edge: &Edge, given: Option<Label>) -> bool
    ensures { result ≡ spec.has_label given edge.now }
{
    match given {
        Some(label) => edge.label == label,
        None => true,
    }
}
