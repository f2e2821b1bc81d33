//! The text of a script: how it is cut into chunks, one for each statement, and which tokens a
//! chunk has. The types of tokens (`lorel_tokens`) are passed on.
#![tactic(auto)]

pub use chunk_reader::{Chunks, Fed, FedState, Rest};
pub use faults::LexFault;
pub use laws::{one_cut, one_outcome, some_cut, some_outcome};
pub use lexer::tokens;
pub use lorel_tokens::{Kind, Sign, Token, TokenList};

mod byte_class;
mod chunk_reader;
mod faults;
mod gaps;
pub mod laws;
mod lexer;
mod numbers;
mod quoted_texts;
mod scan;
mod symbols;
mod words;
