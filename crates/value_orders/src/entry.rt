use lore_base::{Label, Oid};

/// An object under a label. Its value stands elsewhere.
#[derive(Clone, Copy, Debug, PartialEq, Eq)]
pub struct Entry {
    pub label: Label,
    pub object: Oid,
}
