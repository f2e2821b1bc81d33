ghost use Rattle.std.specs.Prelude.{◌≡◌};
ghost use Rattle.link_index.specs.inside.LinkEdges.{edge_at, link_at};

use key_sort::Key;
use lore_base::{Edge, Label, Oid};

// An edge in the order of child, label and parent.
#[derive(Clone, Copy, Debug, PartialEq, Eq, PartialOrd, Ord)]
pub(crate) struct Link {
    pub(crate) child: Oid,
    pub(crate) label: Label,
    pub(crate) parent: Oid,
}

impl Link {
    pub(crate) fn of(edge: &Edge) -> Link
        ensures { result ≡ link_at edge.now }
    {
        Link {
            child: edge.child,
            label: edge.label,
            parent: edge.parent,
        }
    }

    pub(crate) fn edge(&self) -> Edge
        ensures { result ≡ edge_at self.now }
    {
        Edge {
            parent: self.parent,
            label: self.label,
            child: self.child,
        }
    }
}

// The key of a link's child.
pub(crate) struct ByChild;

impl Key<Link> for ByChild {
    ghost key_of = { λ link. link.child.0 };

    fn key(link: &Link) -> u32 {
        link.child.0
    }
}

// The key of its label.
pub(crate) struct ByLabel;

impl Key<Link> for ByLabel {
    ghost key_of = { λ link. link.label.0 };

    fn key(link: &Link) -> u32 {
        link.label.0
    }
}
