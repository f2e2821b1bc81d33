ghost use Rattle.std.specs.Prelude.{◌≡◌, []};

use crate::lists::{EdgeBuf, ObjectList};
use crate::name_table::Names;
use lore_lists::TextList;
use std::alloc::Global;

/// The changes that one statement makes, all taken over the state before it (after the basic
/// changes of Chawathe et al. 1998): objects that are made and given values, edges added and
/// removed, names bound and taken away, and the texts of labels that the table lacks, in the order
/// of their numbers.
#[derive(Drop)]
pub struct Changes {
    pub made: ObjectList,
    pub values: ObjectList,
    pub added: EdgeBuf,
    pub removed: EdgeBuf,
    pub named: Names,
    pub unnamed: TextList,
    pub labels: TextList,
}

impl Changes {
    /// No change. Takes no memory.
    pub fn new(alloc: Global) -> Changes
        ensures made { result.made ≡ [] }
        ensures values { result.values ≡ [] }
        ensures added { result.added ≡ [] }
        ensures removed { result.removed ≡ [] }
        ensures named { result.named ≡ [] }
        ensures unnamed { result.unnamed ≡ [] }
        ensures labels { result.labels ≡ [] }
    {
        Changes {
            made: ObjectList::new(alloc),
            values: ObjectList::new(alloc),
            added: EdgeBuf::new(alloc),
            removed: EdgeBuf::new(alloc),
            named: Names::new(alloc),
            unnamed: TextList::new(alloc),
            labels: TextList::new(alloc),
        }
    }
}
