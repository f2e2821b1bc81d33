ghost use Rattle.std.specs.Prelude.{◌≡◌, ◌<◌, ◌∷◌, [], ◌+◌, ◌≤◌, ◌++◌, length, IfOk, IfErr, IfSome, IfNone, OnOk};
ghost use Rattle.lore_base.specs.ChangeSets.{AreSame};
ghost use Rattle.lore_base.specs.ChangeCauses.{ChangeCause};
ghost use Rattle.lore_base.specs.Verdicts.{IsClear, IsToldBy};
ghost use Rattle.oem_labels.specs.Labels.{first_uses, label_in};
ghost use Rattle.updates.specs.Types.{LABELS};
ghost use Rattle.updates.specs.Effects.{links, linking, unlinking};
ghost use Rattle.updates.specs.inside.Forms.{form_order};
ghost use Rattle.updates.specs.Faults.{refusal_of};

use crate::faults::UpdateFault;
use crate::limit_tests::has_too_many;
use crate::row_tests::any_atomic_link;
use crate::update_changes::PairList;
use lore_base::{Changes, Edge, EdgeBuf, Label, NoMemory, OemText, Oid, TextList};
use oem_graph::Graph;
use oem_labels::LabelTable;
use oem_text::LabelNumbers;
use std::alloc::Global;

// A label, and its text where the table lacks it.
#[derive(Drop)]
pub(crate) struct OwnLabel {
    pub(crate) label: Label,
    pub(crate) texts: TextList,
}

/// The changes that add the edge of each row, which has the label. Refused are an edge that would
/// leave an atomic object (`AtomicParent`), and more labels than a table holds (`TooManyLabels`).
pub(crate) fn link(
    alloc: Global,
    label: &OemText,
    rows: &PairList,
    graph: &Graph,
    labels: &LabelTable,
) -> Result<Changes, UpdateFault>
    ensures same { IfOk result (AreSame (linking labels.now label.now rows.now)) }
    ensures ok { let all = linking labels.now label.now rows.now in
        OnOk result (IsClear (ChangeCause labels.now graph.now.graph all) form_order) }
    ensures err { let all = linking labels.now label.now rows.now in
        IfErr result (λ fault. IsToldBy
        (ChangeCause labels.now graph.now.graph all) form_order (refusal_of fault)) }
{
    if any_atomic_link(graph, rows.as_slice()) {
        return Err(UpdateFault::AtomicParent);
    }
    let _next = graph.next();
    let Some(own) = own_label(alloc, label, labels)? else {
        return Err(UpdateFault::TooManyLabels);
    };
    let added = edges_of_rows(alloc, own.label, rows.as_slice())?;
    let mut changes = Changes::new(alloc);
    changes.added = added;
    changes.labels = own.texts;
    Ok(changes)
}

// The label of the text, the next one where no label has it; None where there would be more labels
// than a table holds.
fn own_label(
    alloc: Global,
    text: &OemText,
    labels: &LabelTable,
) -> Result<Option<OwnLabel>, NoMemory>
    ensures texts { IfOk result (λ found. IfSome found (λ own.
        own.texts ≡ first_uses labels.now (text.now ∷ []))) }
    ensures label { IfOk result (λ found. IfSome found (λ own.
        own.label ≡ label_in (labels.now ++ own.texts) text.now)) }
    ensures few { IfOk result (λ found. IfSome found (λ own.
        length labels.now + length own.texts ≤ LABELS)) }
    ensures none { IfOk result (λ found. IfNone found
        (LABELS < length labels.now + length (first_uses labels.now (text.now ∷ [])))) }
{
    let Some(mut numbers) = LabelNumbers::new(alloc, labels) else {
        return Ok(None);
    };
    let Some(label) = numbers.number(text, 0)? else {
        return Ok(None);
    };
    let texts = numbers.texts(alloc)?;
    Ok(Some(OwnLabel { label, texts }))
}

/// The changes that remove the edge of each row, which has the label. A label that the table lacks
/// has none. Refused is a table that has too many labels as it is (`TooManyLabels`).
pub(crate) fn unlink(
    alloc: Global,
    label: &OemText,
    rows: &PairList,
    graph: &Graph,
    labels: &LabelTable,
) -> Result<Changes, UpdateFault>
    ensures same { IfOk result (AreSame (unlinking labels.now label.now rows.now)) }
    ensures ok { let all = unlinking labels.now label.now rows.now in
        OnOk result (IsClear (ChangeCause labels.now graph.now.graph all) form_order) }
    ensures err { let all = unlinking labels.now label.now rows.now in
        IfErr result (λ fault. IsToldBy
        (ChangeCause labels.now graph.now.graph all) form_order (refusal_of fault)) }
{
    let _next = graph.next();
    if has_too_many(labels) {
        return Err(UpdateFault::TooManyLabels);
    }
    let removed = edges_by_text(alloc, label, rows.as_slice(), labels)?;
    let mut changes = Changes::new(alloc);
    changes.removed = removed;
    Ok(changes)
}

// The edges of the rows with the label of the text, and none where no label has it.
fn edges_by_text(
    alloc: Global,
    text: &OemText,
    rows: &[(Oid, Option<Oid>)],
    labels: &LabelTable,
) -> Result<EdgeBuf, NoMemory>
    ensures { IfOk result
        (λ edges. edges ≡ (unlinking labels.now text.now rows.now).removed) }
{
    let _count = labels.len();
    match labels.find(text) {
        Some(label) => edges_of_rows(alloc, label, rows),
        None => Ok(EdgeBuf::new(alloc)),
    }
}

// The edge of each row that has an object on its right side.
fn edges_of_rows(
    alloc: Global,
    label: Label,
    rows: &[(Oid, Option<Oid>)],
) -> Result<EdgeBuf, NoMemory>
    ensures { IfOk result (λ edges. edges ≡ links label rows.now) }
{
    let mut edges = EdgeBuf::with_capacity(alloc, rows.len())?;
    'rows: for (target, other) in rows {
        if let Some(child) = other {
            edges.push(Edge {
                parent: *target,
                label,
                child: *child,
            })?;
        }
    }
    Ok(edges)
}
