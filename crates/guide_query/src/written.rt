ghost use Rattle.std.specs.Prelude.{◌≡◌, ◌++◌, [], length, slice_get, unwrap_or, IfOk, OnOk};
ghost use Rattle.guide_query.specs.inside.Written.{size_at, origin_at, path_in, name_text, step_text};
ghost use Rattle.guide_query.specs.inside.Written.{origin_text, node_line, AreWritten};

use crate::label_writer::{put, put_size, put_step};
use crate::origins::Origin;
use dataguide::{Guide, Node};
use itoa::Buffer;
use lore_base::{Label, NoMemory, OemText, TextList};
use oem_labels::LabelTable;
use std::alloc::Global;

// Room for a dot, two quotes, a space and a size.
const BEHIND_LABEL: usize = 24;

// The size of the set of a node.
pub(crate) fn size_at(guide: &Guide, node: Node) -> usize
    ensures { result ≡ size_at guide.now.nodes node.0 }
{
    match guide.set(node) {
        Some(set) => set.len(),
        None => 0,
    }
}

// The origin at a place.
fn origin_at(origins: &[Origin], place: usize) -> Origin
    ensures { result ≡ origin_at origins.now place }
{
    match origins.get(place) {
        Some(origin) => *origin,
        None => Origin::Unmet,
    }
}

// The name of the entry at a place, empty where there are not so many.
fn name_at(entries: &[(OemText, Node)], place: usize) -> &[u8]
    ensures { result.now ≡ name_text (slice_get entries.now place) }
{
    match entries.get(place) {
        Some(entry) => entry.0.as_bytes(),
        None => &[],
    }
}

// The line at a place, empty where there are not so many.
fn line_at(lines: &[OemText], place: usize) -> &[u8]
    ensures { result.now ≡ unwrap_or (slice_get lines.now place) [] }
{
    match lines.get(place) {
        Some(line) => line.as_bytes(),
        None => &[],
    }
}

// The text of the path in a line, before the size. What the size takes is found by printing it,
// which is cheaper than a list of the lengths of paths.
fn path_in(line: &[u8], size: usize) -> &[u8]
    ensures { result.now ≡ path_in line.now size }
{
    let mut buffer = Buffer::new();
    let behind = buffer.format(size).len().saturating_add(1);
    &line[..line.len().saturating_sub(behind)]
}

// The length of the label's text, 0 where it has none.
fn text_len(labels: &LabelTable, label: Label) -> usize
    ensures { result ≡ length (unwrap_or (slice_get labels.now label.0) []) }
{
    match labels.text(label) {
        Some(text) => text.as_bytes().len(),
        None => 0,
    }
}

// Puts a label behind a dot, where it has a text.
pub(crate) fn put_label(
    line: &mut Vec<u8>,
    labels: &LabelTable,
    label: Label,
) -> Result<(), NoMemory>
    ensures { OnOk result
        (line.new.items ≡ line.old.items ++ step_text (slice_get labels.now label.0)) }
{
    match labels.text(label) {
        Some(text) => put_step(line, text.as_bytes()),
        None => Ok(()),
    }
}

// Puts the path that a mention gives. Paths may be long, so a line gets the room that it needs.
fn put_path(
    line: &mut Vec<u8>,
    guide: &Guide,
    labels: &LabelTable,
    lines: &[OemText],
    origin: Origin,
) -> Result<(), NoMemory>
    ensures { OnOk result (line.new.items ≡ line.old.items
        ++ origin_text guide.now labels.now lines.now origin) }
{
    match origin {
        Origin::Unmet => Ok(()),
        Origin::Named(place) => put(line, name_at(guide.entries(), place)),
        Origin::Step(from, label) => {
            let parent = line_at(lines, from.0 as usize);
            let room = parent.len().saturating_add(text_len(labels, label));
            line.reserve(room.saturating_add(BEHIND_LABEL))?;
            put(line, path_in(parent, size_at(guide, from)))?;
            put_label(line, labels, label)
        }
    }
}

// The line of a node with this origin and a set of this size.
fn node_line(
    alloc: Global,
    guide: &Guide,
    labels: &LabelTable,
    lines: &[OemText],
    origin: Origin,
    size: usize,
) -> Result<OemText, NoMemory>
    ensures { IfOk result (λ line.
        line ≡ node_line guide.now labels.now lines.now origin size) }
{
    let mut line = Vec::new(alloc);
    put_path(&mut line, guide, labels, lines, origin)?;
    put_size(&mut line, size)?;
    OemText::from_vec(alloc, line)
}

// The lines of the nodes, in the nodes' order, where these are their origins.
pub(crate) fn node_lines(
    alloc: Global,
    guide: &Guide,
    labels: &LabelTable,
    origins: &[Origin],
) -> Result<TextList, NoMemory>
    ensures { IfOk result (AreWritten guide.now labels.now origins.now
        (length guide.now.nodes)) }
{
    let mut lines = TextList::with_capacity(alloc, origins.len().saturating_add(1))?;
    'nodes: for place in 0..guide.len() {
        let origin = origin_at(origins, place as usize);
        let size = size_at(guide, Node(place));
        let line = node_line(alloc, guide, labels, lines.as_slice(), origin, size)?;
        lines.push(line)?;
    }
    Ok(lines)
}
