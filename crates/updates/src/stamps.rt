ghost use Rattle.std.specs.Prelude.{◌≡◌, ◌+◌, ◌*◌, ◌≤◌, ◌<◌, ◌^◌, ◌∷◌, ◌++◌, map, length, All, IfOk, IfSome, IfNone, OnOk};
ghost use Rattle.oem_labels.specs.Labels.{first_uses};
ghost use Rattle.oem_text.specs.Layouts.{texts_of};
ghost use Rattle.updates.specs.Types.{LABELS, NEXT_NUMBER};
ghost use Rattle.updates.specs.Effects.{targets};
ghost use Rattle.updates.specs.inside.Stamps.{IsStamp, moved, stamped_objects, stamped_edges};

use lore_base::{Edge, EdgeBuf, Label, NoMemory, ObjectList, OemText, Oid, TextList};
use oem_labels::LabelTable;
use oem_text::{LabelNumbers, Layout};
use std::alloc::Global;

/// What each copy of a literal brings beside its objects: the label of the edge that leads to its
/// first object, and its edges between places, ascending, each once. With all of them come the
/// texts of labels that the table lacks, in the order of their first use.
#[derive(Drop)]
pub(crate) struct Stamp {
    pub label: Label,
    pub edges: EdgeBuf,
    pub texts: TextList,
}

/// The stamp of a literal under a label; None where there would be more labels than a table holds.
pub(crate) fn stamp_of(
    alloc: Global,
    label: &OemText,
    layout: &Layout,
    labels: &LabelTable,
) -> Result<Option<Stamp>, NoMemory>
    requires { length layout.now.values ≤ 2 ^ 32 }
    ensures stamp { IfOk result (λ found.
        IfSome found (IsStamp labels.now label.now layout.now)) }
    ensures few { IfOk result (λ found. IfSome found (λ stamp.
        length labels.now + length stamp.texts ≤ LABELS)) }
    ensures none { IfOk result (λ found. IfNone found (LABELS
        < length labels.now + length (first_uses labels.now (label.now ∷ texts_of layout.now)))) }
{
    let Some(mut numbers) = LabelNumbers::new(alloc, labels) else {
        return Ok(None);
    };
    let Some(label) = numbers.number(label, 0)? else {
        return Ok(None);
    };
    let Some(mut edges) = layout.edges(alloc, 0, &mut numbers)? else {
        return Ok(None);
    };
    edges.sort_set();
    let texts = numbers.texts(alloc)?;
    Ok(Some(Stamp {
        label,
        edges,
        texts,
    }))
}

/// The objects of the copies, one for the target of each row, numbered from `next` on.
pub(crate) fn copied_objects(
    alloc: Global,
    layout: &Layout,
    rows: &[(Oid, Option<Oid>)],
    next: u64,
) -> Result<ObjectList, NoMemory>
    requires { next + length rows.now * length layout.now.values ≤ NEXT_NUMBER }
    ensures { IfOk result (λ objects.
        objects ≡ stamped_objects next layout.now.values (targets rows.now)) }
{
    let mut objects = ObjectList::new(alloc);
    let mut base = next;
    let size = layout.len();
    'rows: for _row in rows {
        layout.put_objects(alloc, base, &mut objects)?;
        base += size;
    }
    Ok(objects)
}

/// The edges of the copies, with the one from each target to the first object of its copy.
pub(crate) fn copied_edges(
    alloc: Global,
    stamp: &Stamp,
    size: u64,
    rows: &[(Oid, Option<Oid>)],
    next: u64,
) -> Result<EdgeBuf, NoMemory>
    requires some { 0 < size }
    requires inside { All (λ edge. (edge.parent.0 < size) × (edge.child.0 < size)) stamp.now.edges }
    requires room { next + length rows.now * size ≤ NEXT_NUMBER }
    ensures { IfOk result (λ edges.
        edges ≡ stamped_edges next size stamp.now.label stamp.now.edges (targets rows.now)) }
{
    let mut edges = EdgeBuf::new(alloc);
    let mut base = next;
    'rows: for (target, _) in rows {
        edges.push(Edge {
            parent: *target,
            label: stamp.label,
            child: Oid(base as u32),
        })?;
        put_moved(&mut edges, stamp.edges.as_slice(), base)?;
        base += size;
    }
    Ok(edges)
}

// Puts edges between places behind those that are there, where the object at place 0 has the number
// `base`.
fn put_moved(edges: &mut EdgeBuf, places: &[Edge], base: u64) -> Result<(), NoMemory>
    requires { All (λ edge.
        (base + edge.parent.0 < NEXT_NUMBER) × (base + edge.child.0 < NEXT_NUMBER)) places.now }
    ensures { OnOk result (edges.new ≡ edges.old ++ map (moved base) places.now) }
{
    'places: for edge in places {
        edges.push(Edge {
            parent: Oid((base + edge.parent.0 as u64) as u32),
            label: edge.label,
            child: Oid((base + edge.child.0 as u64) as u32),
        })?;
    }
    Ok(())
}
