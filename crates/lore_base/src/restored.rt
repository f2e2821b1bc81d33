use crate::change_set::Changes;
use crate::modes::Mode;

/// A whole database as changes of the new one: its labels, names, objects and edges come, and
/// nothing else changes. With them its next number, node limit and plan mode. Object numbers may
/// have gaps.
#[derive(Drop)]
pub struct Restored {
    pub changes: Changes,
    pub next: u64,
    pub nodes: u32,
    pub mode: Mode,
}
