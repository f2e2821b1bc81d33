use dump_text::PrintedDump;
use lore_base::{Refusal, TextList};
use lorel_bound::{Answer, PlanKind};

/// What a statement answers.
#[derive(Drop)]
pub enum Reply {
    /// The database was changed; so many objects and edges are there now, and its guide has so many
    /// nodes.
    Changed {
        objects: u32,
        edges: u32,
        nodes: u32,
    },
    /// The rows of a select.
    Rows(Answer),
    /// The rows of a select over the database as it was at a moment of its history.
    Past {
        moment: u32,
        answer: Answer,
    },
    /// The plan of a select: its kind; how many objects have a value that its comparison asks for;
    /// and how many the comparison's range reaches from the name. Both are None where it can have
    /// no plan from the bottom.
    PlanShown {
        kind: PlanKind,
        candidates: Option<u32>,
        found: Option<u32>,
    },
    /// Lines of text, without line ends.
    Lines(TextList),
    /// The lines of a dump, each with its end.
    Dump(PrintedDump),
    /// The statement was refused and changed nothing.
    Refused(Refusal),
}
