//! The outside of a run: the source that a script comes from and the sink that its replies go to, over
//! what the system gives, and in memory.
#![tactic(auto)]

pub use memory_ends::{MemSink, MemSource, SureSink, SureSource};
pub use outside::{Failed, Sink, Source};
pub use standard_ends::{StdSink, StdSource};

mod memory_ends;
mod outside;
mod standard_ends;
