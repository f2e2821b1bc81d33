//! The tokens of the script language: what a token is, and which bytes stand for it.
#![tactic(auto)]

pub use token_types::{Kind, Sign, Token, TokenList};

mod token_types;
