//! One OEM database with all that is kept of it: its graph, its table of labels, its guide, and the
//! indexes of its links and values.
//!
//! A change comes in three calls: `prepare` works out what it leads to, `reserve` takes the memory
//! for it, and `commit` puts it in place and cannot fail. A whole database comes by `restore`.
#![tactic(auto)]

pub use faults::{RestoreFault, StoreFault};
pub use prepared::Prepared;
pub use store::Store;

mod cuts;
mod faults;
mod indexes;
mod prepared;
mod store;
