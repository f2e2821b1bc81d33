//! The data of an OEM database: values, edges, lists of them, names, paths, operators, changes,
//! refusals and the step counter; with them, passed on, lists and texts (`lore_lists`) and the outside
//! of a run (`lore_ends`).
//!
//! Its `specs/` hold the definitions that several crates cite: walks, what paths spell and reach,
//! names, comparisons, databases and changes of them. Its `laws` say of paths what a reader expects.
#![tactic(auto)]

pub use change_set::Changes;
pub use decimals::read_whole;
pub use deltas::Delta;
pub use edges::{Edge, Label, Oid};
pub use faults::Fault;
pub use leaf_counts::{leaf_count, path_leaf_count};
pub use lists::{EdgeBuf, ObjectList, OidBuf, Word};
pub use lore_ends::{
    Failed, MemSink, MemSource, Sink, Source, StdSink, StdSource, SureSink, SureSource,
};
pub use lore_lists::{CallList, Listing, NoMemory, OemText, Out, RoomyList, TextList, TryCopy};
pub use modes::Mode;
pub use name_table::Names;
pub use names::{is_identifier, is_name, is_reserved};
pub use operators::Op;
pub use paths::{LabelTest, Path, PathList, Pattern};
pub use refusals::Refusal;
pub use restored::Restored;
pub use step_counter::Steps;
pub use values::Value;
pub use wildcards::{is_like, is_matched};

mod change_set;
mod decimals;
mod deltas;
mod edges;
mod faults;
pub mod laws;
mod leaf_counts;
pub mod limits;
mod lists;
mod modes;
mod name_table;
mod names;
mod operators;
mod paths;
mod refusals;
mod restored;
mod step_counter;
mod values;
mod wildcards;
