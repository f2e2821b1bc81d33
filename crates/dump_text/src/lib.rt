//! Whole databases as dump texts, written and read back.
//!
//! A dump stands for a database as a tree (`specs/Dumps`), which is written line by line. A tree
//! that is read back keeps the rules of dump texts (`specs/Rules`), or it stands for no database.
#![tactic(auto)]

pub use faults::DumpFault;
pub use printed::PrintedDump;
pub use reading::read_dump;
pub use writing::dump;

mod edges;
mod faults;
pub mod laws;
mod lines;
mod printed;
mod reach;
mod reading;
mod rules;
mod writing;
