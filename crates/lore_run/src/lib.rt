//! Scripts: from the bytes of a script to the bytes of its replies.
//!
//! `run_lore` reads a script piece by piece (`run`) and cuts each piece into chunks (`pieces`). It
//! lexes a chunk (`lorel_lex`), parses it (`lorel_parse`), executes it (`lore_db`) on the database of a
//! session (`sessions`) and writes its reply (`parts`, `rendering`) by way of a buffer
//! (`reply_texts`) before it reads on.
#![tactic(auto)]

pub use run::run_lore;
pub use sessions::Session;
pub use status::{Outcome, Status};

mod parts;
mod past_values;
mod pieces;
mod rendering;
mod run;
mod sessions;
mod status;
mod tally;
