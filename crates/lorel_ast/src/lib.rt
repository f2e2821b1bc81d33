//! Statements as the crates above see them: their trees, and the canonical text of each.
//!
//! The trees are those of `lorel_trees`. A printed statement has the canonical tokens of its tree
//! (`specs/Printing`) and is lexed and parsed as the same statement (the law `printed_statements`
//! of `grammar_laws`).
#![tactic(auto)]

pub use lorel_trees::{
    Cond, CondList, DumpEdges, DumpTree, FromItem, FromList, Item, ItemList, LabelPath, Literal,
    Member, MemberList, NamedList, Operand, Rooted, Select, Statement, Tail, rows_form,
};
pub use print_statements::print_statement;

mod print_conditions;
mod print_dumps;
mod print_literals;
mod print_paths;
mod print_selects;
mod print_statements;
mod token_writer;
