//! What a guide tells: its nodes as lines, each with the least label path that leads there, the
//! lines that show where a label path leads, those that show a sample of its objects, and what
//! paths reach from named objects.
//!
//! No edge of the graph is read; for a sample alone the values of its objects are looked up.
#![tactic(auto)]

pub use browsing::browse_lines;
pub use guide_paths::GuidePaths;
pub use lines::guide_lines;
pub use samples::sample_lines;

mod browsing;
mod guide_paths;
mod guide_sets;
mod label_writer;
pub mod laws;
mod lines;
mod origins;
mod path_nodes;
mod samples;
mod written;
