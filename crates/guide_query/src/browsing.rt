ghost use Rattle.std.specs.Prelude.{◌≡◌, ◌≢◌, ℕ, List, ◌∷◌, ◌++◌, codes, decimal, map, AllPairs};
ghost use Rattle.std.specs.Prelude.{IfOk, OnOk};
ghost use Rattle.std.specs.List.{flat_map};
ghost use Rattle.guide_query.specs.Types.{Oid as TheOid, Edge as TheEdge};
ghost use Rattle.guide_query.specs.GuideLines.{IsLabelledGuide, label_text, path_text, size_text};
ghost use Rattle.guide_query.specs.PathLines.{AreBrowseLines};
ghost use Rattle.guide_query.specs.inside.PathNodes.{edge_line};

use crate::label_writer::{put, put_size, put_step};
use crate::path_nodes::{node_of, row_at, set_at};
use crate::written::{put_label, size_at};
use dataguide::{Guide, Node};
use itoa::Buffer;
use lore_base::{Label, NoMemory, OemText, TextList};
use lorel_trees::LabelPath;
use oem_labels::LabelTable;
use std::alloc::Global;

/// The lines that show where a label path leads, without line ends: `at`, the path and the size of
/// its target set; for each label that leaves this set, by number, a dot, the label and how many
/// objects it leads to; then `labels` and the number of these labels.
///
/// A path that leads nowhere has size 0 and no labels. The guide is that of the database, and its
/// labels are distinct. No edge of the graph is read.
pub fn browse_lines(
    guide: &Guide,
    path: &LabelPath,
    labels: &LabelTable,
) -> Result<TextList, NoMemory>
    ensures { IfOk result (λ lines. (names : List (List ℕ × TheOid)) (edges : List TheEdge)
        → IsLabelledGuide guide.now labels.now names edges → AllPairs (λ a b. a ≢ b) labels.now
        → AreBrowseLines names edges labels.now path.now.start path.now.labels lines) }
{
    let alloc = guide.allocator();
    let node = node_of(guide, labels, path);
    let row = row_at(guide, node);
    let mut lines = TextList::with_capacity(alloc, row.len().saturating_add(2))?;
    lines.push(at_line(alloc, path, set_at(guide, node).len())?)?;
    push_edges(alloc, guide, labels, row, &mut lines)?;
    lines.push(labels_line(alloc, row.len())?)?;
    Ok(lines)
}

// Puts each text behind a dot, as a label.
fn put_steps(line: &mut Vec<u8>, texts: &[OemText]) -> Result<(), NoMemory>
    ensures { OnOk result (line.new.items
        ≡ line.old.items ++ flat_map (λ label. 46 ∷ label_text label) texts.now) }
{
    'texts: for text in texts {
        put_step(line, text.as_bytes())?;
    }
    Ok(())
}

// The line with the path and the size of its target set.
fn at_line(alloc: Global, path: &LabelPath, size: usize) -> Result<OemText, NoMemory>
    ensures { IfOk result (λ line. line
        ≡ codes "at " ++ path_text path.now.start path.now.labels ++ size_text size) }
{
    let mut line = Vec::from_slice(alloc, b"at ")?;
    put(&mut line, path.start.as_bytes())?;
    put_steps(&mut line, path.labels.as_slice())?;
    put_size(&mut line, size)?;
    OemText::from_vec(alloc, line)
}

// The line of a label and the node that it leads to.
fn edge_line(
    alloc: Global,
    guide: &Guide,
    labels: &LabelTable,
    edge: (Label, Node),
) -> Result<OemText, NoMemory>
    ensures { IfOk result (λ line. line ≡ edge_line guide.now labels.now edge) }
{
    let mut line = Vec::new(alloc);
    put_label(&mut line, labels, edge.0)?;
    put_size(&mut line, size_at(guide, edge.1))?;
    OemText::from_vec(alloc, line)
}

// Puts a line for each edge behind the lines.
fn push_edges(
    alloc: Global,
    guide: &Guide,
    labels: &LabelTable,
    row: &[(Label, Node)],
    lines: &mut TextList,
) -> Result<(), NoMemory>
    ensures { OnOk result
        (lines.new ≡ lines.old ++ map (edge_line guide.now labels.now) row.now) }
{
    'edges: for edge in row {
        lines.push(edge_line(alloc, guide, labels, *edge)?)?;
    }
    Ok(())
}

// The line with the number of labels.
fn labels_line(alloc: Global, count: usize) -> Result<OemText, NoMemory>
    ensures { IfOk result (λ line. line ≡ codes "labels " ++ decimal count) }
{
    let mut line = Vec::from_slice(alloc, b"labels ")?;
    put(&mut line, Buffer::new().format(count).as_bytes())?;
    OemText::from_vec(alloc, line)
}
