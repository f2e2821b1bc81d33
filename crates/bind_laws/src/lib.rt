//! Laws of the query language: bindings, answers and refusals are determined and exist, and neither
//! fusing nor binding changes a row.
#![tactic(auto)]

pub mod laws;
