ghost use Rattle.std.specs.Prelude.{◌≡◌, List, IfOk};
ghost use Rattle.guide_query.specs.Types.{Edge as TheEdge};
ghost use Rattle.guide_query.specs.GuideLines.{IsLabelledGuide, AreGuideLines, count_line};

use crate::origins::origins_of;
use crate::written::node_lines;
use dataguide::Guide;
use itoa::Buffer;
use lore_base::{Names, NoMemory, OemText, TextList};
use oem_labels::LabelTable;
use std::alloc::Global;

/// The lines of a guide, without line ends: for each node its least label path, a space and how
/// many objects its set has, in the order of these paths; then `nodes` and the number of nodes.
///
/// `names` are the names that the guide was built from: its entries have them, so that only the
/// clause reads them here. A path is its name and each label behind a dot, bare where it is an
/// identifier (a reserved word too), and else in single quotes with escapes.
pub fn guide_lines(guide: &Guide, names: &Names, labels: &LabelTable) -> Result<TextList, NoMemory>
    ensures { IfOk result (λ lines. (edges : List TheEdge)
        → IsLabelledGuide guide.now labels.now names.now edges
        → AreGuideLines names.now edges labels.now lines) }
{
    let alloc = guide.allocator();
    let origins = origins_of(alloc, guide)?;
    let mut lines = node_lines(alloc, guide, labels, origins.as_slice())?;
    lines.push(last_line(alloc, guide.len())?)?;
    Ok(lines)
}

// The line with the number of nodes.
fn last_line(alloc: Global, count: u32) -> Result<OemText, NoMemory>
    ensures { IfOk result (λ line. line ≡ count_line count) }
{
    let mut line = Vec::from_slice(alloc, b"nodes ")?;
    line.extend_from_slice(Buffer::new().format(count).as_bytes())?;
    OemText::from_vec(alloc, line)
}
