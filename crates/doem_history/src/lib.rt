//! The history of a database after DOEM (Chawathe, Abiteboul and Widom 1998): each fact with the
//! moments at which it began and ended, so that the database can be read as it was at each moment.
//!
//! A moment is appended in three calls: `prepare` works out what ends and what begins, `reserve`
//! takes the memory for it, and `commit` puts it in place and cannot fail.
#![tactic(auto)]

pub use faults::HistoryFault;
pub use history::History;
pub use plans::HistoryPlan;
pub use view::HistoryView;

mod edge_timeline;
mod faults;
mod history;
pub mod laws;
mod links;
mod name_facts;
mod plans;
mod run_chains;
mod timeline;
mod view;
