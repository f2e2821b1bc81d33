//! Lists and texts in memory that may be refused: how they grow, are copied, sorted and compared, and
//! where the pieces of a text are put.
//!
//! Its `specs/` hold the order of texts, what it means that a list grows at its end, what a put of a
//! piece does, and when a fault may be answered.
#![tactic(auto)]

pub use lists::{CallList, Listing, TextList, TryCopy};
pub use no_memory::NoMemory;
pub use out::Out;
pub use roomy_list::RoomyList;
pub use texts::OemText;

mod lists;
mod no_memory;
mod out;
mod roomy_list;
mod text_order;
mod texts;
mod tuple_copies;
