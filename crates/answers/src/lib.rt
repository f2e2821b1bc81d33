//! The answer to a select: the rows that its cells show of rows of slots, each once, in their order.
//!
//! Rows of slots come one by one (`plan_ops`). A cell shows the object of a name or of a slot, or the
//! least word that leads to the object in a slot (`least_words`). `all_rows` (`rows`) takes each row,
//! has its cells read (`shown_rows`), where one search from an object serves all words that start
//! there (`slot_words`), and notes the row down, each once (`found_rows`). The answer (`lorel_bound`)
//! is the ascending list of all of them.
#![tactic(auto)]

pub use rows::all_rows;

mod found_rows;
mod ready_cells;
mod rows;
mod shown_rows;
mod slot_words;
