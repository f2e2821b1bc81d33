//! One database with the history, the blocks and the views that are kept of it, and the statements
//! that are executed on them.
//!
//! `Db::execute` (`db`) takes a statement of any form. What one does on a database is told by
//! `statements`: a statement that lists changes is planned there, and what it makes of the
//! database is put in place here with the moment of the history that it leads to (`kept_history`),
//! and the views that it concerns lose their rows (`changing`); any other is executed at once. A
//! history is begun and ended by `keeping`. A select over the database as it was, and what differs
//! between two moments, are answered by `asking`; the lines of the latter are made by the crate
//! `change_lines`. What the blocks tell, and a select by them, are answered by `blocking`, which
//! builds them where they aren't kept. Selects are kept as views, shown and taken away by
//! `viewing`.
#![tactic(auto)]

pub use db::Db;
pub use statements::{Answer, AnswerRow, Cell, Reply};

mod asking;
mod blocking;
mod changing;
mod db;
mod keeping;
mod viewing;
