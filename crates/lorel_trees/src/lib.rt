//! The trees of the script language, and its grammar as a relation between trees and tokens.
//!
//! The trees stand in `statements`, `selects`, `conditions`, `literals`, `dump_trees` and
//! `rooted_paths`. What a tree is apart from pointers and room is plain data (`specs/Trees`); the
//! grammar (`specs/Grammar`) says which plain trees have which tokens.
#![tactic(auto)]

pub use conditions::{Cond, CondList, Operand};
pub use dump_trees::{DumpEdges, DumpTree, NamedList};
pub use literals::{Literal, Member, MemberList};
pub use rooted_paths::{LabelPath, Rooted};
pub use selects::{FromItem, FromList, Item, ItemList, Select, Tail};
pub use statements::Statement;
pub use update_rows::rows_form;

mod conditions;
mod dump_trees;
mod literals;
mod rooted_paths;
mod selects;
mod statements;
mod update_rows;
