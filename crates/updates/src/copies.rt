ghost use Rattle.std.specs.Prelude.{◌≡◌, IfOk, IfErr, OnOk};
ghost use Rattle.lore_base.specs.Databases.{IsRooted};
ghost use Rattle.lore_base.specs.ChangeSets.{AreSame};
ghost use Rattle.lore_base.specs.ChangeCauses.{ChangeCause};
ghost use Rattle.lore_base.specs.Verdicts.{IsClear, IsToldBy};
ghost use Rattle.lorel_trees.specs.Trees.{literal_tree};
ghost use Rattle.oem_text.specs.Faults.{local_refusal};
ghost use Rattle.updates.specs.Causes.{HasTargets};
ghost use Rattle.updates.specs.Effects.{no_changes};
ghost use Rattle.updates.specs.Faults.{refusal_of};
ghost use Rattle.updates.specs.inside.Forms.{form_order, grown_order, copies_by, CopyCause};
ghost use Rattle.updates.specs.inside.Forms.{copy_order};

use crate::faults::UpdateFault;
use crate::limit_tests::{has_too_many, outgrow};
use crate::row_tests::any_atomic;
use crate::stamps::{copied_edges, copied_objects, stamp_of};
use crate::update_changes::PairList;
use lore_base::limits::{EDGES, NEXT_NUMBER, OBJECTS};
use lore_base::{Changes, OemText};
use lorel_trees::Literal;
use oem_graph::Graph;
use oem_labels::LabelTable;
use oem_text::{LocalFault, lay_out};
use std::alloc::Global;

/// The changes that give the target of each row a copy of the literal, and an edge to its first
/// object with the label. How large the graph gets is told before copies are made.
pub(crate) fn add_copies(
    alloc: Global,
    label: &OemText,
    literal: &Literal,
    rows: &PairList,
    graph: &Graph,
    labels: &LabelTable,
) -> Result<Changes, UpdateFault>
    requires rooted { IsRooted graph.now.graph }
    requires rows { HasTargets graph.now.graph rows.now }
    ensures same { IfOk result (AreSame
        (copies_by labels.now graph.now.graph label.now (literal_tree literal.now) rows.now)) }
    ensures ok { let tree = literal_tree literal.now in
        let cause = CopyCause labels.now graph.now.graph label.now tree rows.now in
        OnOk result (IsClear cause copy_order) }
    ensures err { let tree = literal_tree literal.now in
        let cause = CopyCause labels.now graph.now.graph label.now tree rows.now in
        IfErr result (λ fault. IsToldBy cause copy_order (refusal_of fault)) }
{
    let layout = match lay_out(alloc, literal) {
        Ok(layout) => layout,
        Err(fault) => return Err(local_fault(fault)),
    };
    let size = layout.len();
    if rows.is_empty() {
        return no_copy(alloc, graph, labels);
    }
    if any_atomic(graph, rows.as_slice()) {
        return Err(UpdateFault::AtomicParent);
    }
    let (next, copies) = (graph.next(), rows.len() as u64);
    if outgrow(NEXT_NUMBER, next, copies, size) {
        return Err(UpdateFault::OidsSpent);
    }
    let Some(stamp) = stamp_of(alloc, label, &layout, labels)? else {
        return Err(UpdateFault::TooManyLabels);
    };
    if outgrow(OBJECTS as u64, graph.objects() as u64, copies, size) {
        return Err(UpdateFault::TooManyObjects);
    }
    let edges = stamp.edges.as_slice().len() as u64 + 1;
    if outgrow(EDGES as u64, graph.edges() as u64, copies, edges) {
        return Err(UpdateFault::TooManyEdges);
    }
    let made = copied_objects(alloc, &layout, rows.as_slice(), next)?;
    let added = copied_edges(alloc, &stamp, size, rows.as_slice(), next)?;
    let mut changes = Changes::new(alloc);
    changes.made = made;
    changes.added = added;
    changes.labels = stamp.texts;
    Ok(changes)
}

// The fault of the same name.
fn local_fault(fault: LocalFault) -> UpdateFault
    ensures { refusal_of result ≡ local_refusal fault }
{
    match fault {
        LocalFault::DuplicateLocal => UpdateFault::DuplicateLocal,
        LocalFault::UndefinedLocal => UpdateFault::UndefinedLocal,
        LocalFault::NoMemory => UpdateFault::NoMemory,
    }
}

// No copy, where there is no row.
fn no_copy(alloc: Global, graph: &Graph, labels: &LabelTable) -> Result<Changes, UpdateFault>
    requires { IsRooted graph.now.graph }
    ensures same { IfOk result (AreSame no_changes) }
    ensures ok { OnOk result
        (IsClear (ChangeCause labels.now graph.now.graph no_changes) grown_order) }
    ensures err { let cause = ChangeCause labels.now graph.now.graph no_changes in
        IfErr result (λ fault. IsToldBy cause grown_order (refusal_of fault)) }
{
    let _next = graph.next();
    if has_too_many(labels) {
        return Err(UpdateFault::TooManyLabels);
    }
    if graph.objects() as usize > OBJECTS {
        return Err(UpdateFault::TooManyObjects);
    }
    if graph.edges() as usize > EDGES {
        return Err(UpdateFault::TooManyEdges);
    }
    Ok(Changes::new(alloc))
}

/// No change, for an update that has no row and copies no literal.
pub(crate) fn no_change(
    alloc: Global,
    graph: &Graph,
    labels: &LabelTable,
) -> Result<Changes, UpdateFault>
    ensures same { IfOk result (AreSame no_changes) }
    ensures ok { OnOk result
        (IsClear (ChangeCause labels.now graph.now.graph no_changes) form_order) }
    ensures err { let cause = ChangeCause labels.now graph.now.graph no_changes in
        IfErr result (λ fault. IsToldBy cause form_order (refusal_of fault)) }
{
    let _next = graph.next();
    if has_too_many(labels) {
        return Err(UpdateFault::TooManyLabels);
    }
    Ok(Changes::new(alloc))
}
