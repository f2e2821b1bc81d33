//! The parser of the script language: the tree of a statement from its tokens.
//!
//! `parse` is proved against the grammar of `lorel_trees`: it gives the tree that has the tokens,
//! or refuses where no tree has them. That no two trees have the same tokens, and none those of a
//! text that nests too deep, are laws of `grammar_laws`. The crate is read top down: `parser` (the
//! call), `statements` (each form by its first word), `histories`, `dump_texts` and `targets`, over
//! the parser of what statements are made of, `lorel_terms`.
#![tactic(auto)]

pub use lorel_terms::ParseFault;
pub use parser::parse;

mod dump_texts;
mod histories;
mod parser;
mod statements;
mod targets;
