//! The text of replies: what each kind of reply prints, and how a text is written to a sink.
//!
//! `texts` puts the lines of a reply, wherever they go. `write_text` writes all of a text to a
//! sink (`delivering`) by way of a buffer (`reply_writer`).
#![tactic(auto)]

pub use delivering::{ReplyText, write_text};
pub use texts::{put_changed, put_lines, put_plan, put_refused, put_rows};

mod delivering;
mod reply_writer;
mod texts;
