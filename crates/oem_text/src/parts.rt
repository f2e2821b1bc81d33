use lore_base::{EdgeBuf, ObjectList, Oid, TextList};

/// What a literal, or generated objects, bring to a database: objects in order, those of a literal
/// as they begin in the text, edges in that order, the label texts that the table lacks in the order
/// of their first use, and the first object.
#[derive(Drop)]
pub struct Part {
    pub made: ObjectList,
    pub added: EdgeBuf,
    pub labels: TextList,
    pub root: Oid,
}
