//! The statements that are executed on one database.
//!
//! A select (`selects`) is bound (`lorel_bind`); then its plan is chosen (`planner`), and its rows
//! are those that come by it over a view of the database (`select_rows`). A load (`loads`),
//! generated objects (`generating`), a name bound or taken away (`namings`) and an update over the
//! rows of its select (`updating`) list changes (`listing`), and what these make of the database is
//! worked out before it is put in place (`changing`, over `lore_store`). All other statements are
//! executed at once (`execution`). The guide is shown, and its limit set, by `guides`; where a
//! label path leads is shown by `path_lines`; the plan of a select is shown by `explain` (over
//! `planner`), and the plan mode set by `modes`. The whole database is dumped and restored by
//! `dumps`. What ends the work early is a `Stop` (`stops`). What a statement answers is a `Reply`
//! (`replies`), with the rows of a select among them.
#![tactic(auto)]

pub use changing::{PlannedChange, counts, is_changing, planned};
pub use dumps::all_edges;
pub use execution::execute;
pub use lorel_bound::{Answer, AnswerRow, Cell};
pub use replies::Reply;
pub use selects::{select_by, select_over, selected};
pub use stops::{Stop, reply_of};

mod changing;
mod dumps;
mod execution;
mod explain;
mod generating;
mod guides;
mod listing;
mod loads;
mod modes;
mod namings;
mod path_lines;
mod replies;
mod selects;
mod stops;
mod updating;
