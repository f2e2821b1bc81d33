use crate::edges::{Edge, Label, Oid};
use crate::values::Value;
use lore_lists::Listing;

/// Object numbers.
pub type OidBuf = Listing<Oid>;

/// Edges.
pub type EdgeBuf = Listing<Edge>;

/// A word: labels, the first one first.
pub type Word = Listing<Label>;

/// Objects with their values.
pub type ObjectList = Listing<(Oid, Value)>;
