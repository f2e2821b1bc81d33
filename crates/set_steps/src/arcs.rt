ghost use Rattle.std.specs.Prelude.{◌≡◌, ◌↔◌, Contains, IsTrue, OnOk};
ghost use Rattle.std.specs.declared.cmp.Ordering.TheVariants.{Less};
ghost use Rattle.std.specs.Bool.{OnTrue};
ghost use Rattle.set_steps.specs.Types.{Label as TheLabel, Oid as TheOid};
ghost use Rattle.set_steps.specs.inside.Arcs.{AscendAsArcs, arc_cmp, arcs_of};

use key_sort::{Key, set_by_keys};
use lore_base::{Edge, Label, Listing, NoMemory, Oid};

// A label and the child that an edge with it leads to.
pub(crate) type ArcBuf = Listing<(Label, Oid)>;

// The key of an arc's child.
struct ByChild;

impl Key<(Label, Oid)> for ByChild {
    ghost key_of = { λ arc. arc.1.0 };

    fn key(arc: &(Label, Oid)) -> u32 {
        arc.1.0
    }
}

// The key of an arc's label.
struct ByLabel;

impl Key<(Label, Oid)> for ByLabel {
    ghost key_of = { λ arc. arc.0.0 };

    fn key(arc: &(Label, Oid)) -> u32 {
        arc.0.0
    }
}

// Puts the labels and children of the edges into the buffer, in place of what was there.
pub(crate) fn list_arcs(edges: &[Edge], arcs: &mut ArcBuf) -> Result<(), NoMemory>
    ensures { OnOk result (arcs.new ≡ arcs_of edges.now) }
{
    arcs.cut(0);
    'edges: for edge in edges {
        arcs.push((edge.label, edge.child))?;
    }
    Ok(())
}

// Whether the one arc comes before the other.
fn comes_before(arc: (Label, Oid), other: (Label, Oid)) -> bool
    ensures { IsTrue result ↔ (arc_cmp arc other ≡ Less) }
{
    arc.0.0 < other.0.0 || (arc.0.0 == other.0.0 && arc.1.0 < other.1.0)
}

// Whether each arc comes before the next one.
fn ascend(arcs: &[(Label, Oid)]) -> bool
    ensures { OnTrue result (AscendAsArcs arcs.now) }
{
    'arcs: for place in 1..arcs.len() {
        if !comes_before(arcs[place - 1], arcs[place]) {
            return false;
        }
    }
    true
}

// Puts the arcs into order, each once. Those of one object are. Those of more come here only with
// too many labels for buckets, object by object, and the numbers of labels and of children are
// mostly close together: so they are put by these keys.
pub(crate) fn put_in_order(arcs: &mut ArcBuf) -> Result<(), NoMemory>
    ensures ascend { OnOk result (AscendAsArcs arcs.new) }
    ensures members { OnOk result
        ((arc : TheLabel × TheOid) → Contains arcs.new arc ↔ Contains arcs.old arc) }
{
    if ascend(arcs.as_slice()) {
        return Ok(());
    }
    let alloc = arcs.allocator();
    let read = std::mem::replace(arcs, ArcBuf::new(alloc));
    let sorted = set_by_keys::<(Label, Oid), ByChild, ByLabel>(alloc, read)?;
    *arcs = sorted;
    Ok(())
}
