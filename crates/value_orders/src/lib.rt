//! The order of the atomic values of objects, and of entries that name these objects, in five
//! kinds.
//!
//! Of each object the value stands once, by ascending object. Entries name objects under labels,
//! and stand in five orders: those of whole numbers, of texts, of flags, of texts that read as
//! whole numbers, and of texts that read as flags; each by label, then by what its kind compares,
//! then by object. Entries with their values are sorted into these, a few objects are put and
//! taken out one by one, and more of them in one pass.
#![tactic(auto)]

pub use by_value::{ByValue, compare_to};
pub use entry::Entry;
pub use held::{FEW, drop_values, has_value, put_values, search};
pub use keys::{is_of, is_sought};
pub use kind::Kind;
pub use orders::EntryOrders;

mod by_value;
mod dealing;
mod entry;
mod held;
mod keys;
mod kind;
mod orders;
mod ranked;
mod slots;
mod sorting;
