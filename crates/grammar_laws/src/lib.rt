//! What the grammar of statements and their printing mean, in laws and worked statements: no
//! program needs them.
//!
//! The laws are functions that do nothing and whose contracts are proved. That tokens determine
//! their statement, that nothing nests deeper than the limit, and that a printed statement is read
//! back as itself are among them.
#![tactic(auto)]

pub mod laws;
/// Statements with their tokens and trees, worked one by one.
pub mod worked;
