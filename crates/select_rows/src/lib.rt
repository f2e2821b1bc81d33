//! The rows of a bound select over any view of a graph, by any plan of it.
//!
//! A view (`views`) is a graph with what is looked up beside it. The rows that come by a plan
//! (`plan_ops`) are tested by the condition, and what the cells show of them is the answer
//! (`answers`); `rows_over` (`rows`) makes both. What tells early of which objects no row comes:
//! tests of the condition with the indexes (`index_eval`), lists and tables (`row_tests`), made
//! where many rows may come (`beginnings`), and hints (`select_hints`).
#![tactic(auto)]

pub use row_tests::takes_long_walks;
pub use rows::rows_over;
pub use views::View;

mod beginnings;
mod row_tests;
mod rows;
mod views;
