//! Items in ascending order, each once, that change in place: some go, others come.
//!
//! Each call is told the order. A few items are found by bisection, and what lies behind them is
//! moved by one copy of memory. More of them change in one pass. A change takes no memory: `reserve`
//! makes room for what comes, and where much comes for what is moved aside to make way for it.
#![tactic(auto)]

pub use order::{Order, place_of};
pub use ordered_list::OrderedList;

mod coming;
mod going;
mod order;
mod ordered_list;
mod single;
