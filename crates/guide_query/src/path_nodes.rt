ghost use Rattle.std.specs.Prelude.{◌≡◌, ℕ, List};
ghost use Rattle.dataguide.specs.Guides.{HasSet};
ghost use Rattle.guide_query.specs.Types.{Oid as TheOid, Edge as TheEdge};
ghost use Rattle.guide_query.specs.PathLines.{IsWalkedTo};
ghost use Rattle.guide_query.specs.inside.PathNodes.{IsReadable, LeavesBy, IsNodeOf, HasComeTo};
ghost use Rattle.guide_query.specs.inside.PathNodes.{set_at, row_at};

use dataguide::{Guide, Node};
use lore_base::{Label, OemText, Oid};
use lorel_trees::LabelPath;
use oem_labels::LabelTable;

// The node that the label with this text leads to.
fn child_by(guide: &Guide, labels: &LabelTable, node: Node, text: &OemText) -> Option<Node>
    ensures { (names : List (List ℕ × TheOid)) (edges : List TheEdge) (set : List TheOid)
        → IsReadable guide.now labels.now names edges → HasSet guide.now.nodes node set
        → IsNodeOf guide.now.nodes (LeavesBy edges labels.now set text.now) result }
{
    match labels.find(text) {
        Some(label) => guide.child(node, label),
        None => None,
    }
}

// The node that labels with these texts lead to, one after another, from the node where a path
// starts.
fn node_along(guide: &Guide, labels: &LabelTable, start: Node, texts: &[OemText]) -> Option<Node>
    ensures { (names : List (List ℕ × TheOid)) (edges : List TheEdge) (name : List ℕ)
        → IsReadable guide.now labels.now names edges
        → HasComeTo guide.now.nodes names edges labels.now name texts.now texts.now start
        → IsNodeOf guide.now.nodes (IsWalkedTo names edges labels.now name texts.now) result }
{
    let mut node = start;
    'texts: for text in texts {
        match child_by(guide, labels, node, text) {
            Some(next) => node = next,
            None => return None,
        }
    }
    Some(node)
}

// The node that the path leads to.
pub(crate) fn node_of(guide: &Guide, labels: &LabelTable, path: &LabelPath) -> Option<Node>
    ensures { (names : List (List ℕ × TheOid)) (edges : List TheEdge)
        → IsReadable guide.now labels.now names edges
        → IsNodeOf guide.now.nodes
        (IsWalkedTo names edges labels.now path.now.start path.now.labels) result }
{
    match guide.entry(&path.start) {
        Some(start) => node_along(guide, labels, start, path.labels.as_slice()),
        None => None,
    }
}

// The set of the node; that of none where there is no node.
pub(crate) fn set_at(guide: &Guide, node: Option<Node>) -> &[Oid]
    ensures { result.now ≡ set_at guide.now.nodes node }
{
    let Some(node) = node else {
        return &[];
    };
    match guide.set(node) {
        Some(set) => set.as_slice(),
        None => &[],
    }
}

// The edges of the node, by label; none where there is no node.
pub(crate) fn row_at(guide: &Guide, node: Option<Node>) -> &[(Label, Node)]
    ensures { result.now ≡ row_at guide.now.nodes node }
{
    let Some(node) = node else {
        return &[];
    };
    match guide.nodes().get(node.0 as usize) {
        Some(there) => there.edges.as_slice(),
        None => &[],
    }
}
