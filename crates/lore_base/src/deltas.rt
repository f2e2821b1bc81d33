ghost use Rattle.std.specs.Prelude.{◌≡◌, []};

use crate::lists::{EdgeBuf, ObjectList};
use crate::name_table::Names;
use std::alloc::Global;

/// What leads from one graph to another (after the deltas of Chawathe et al. 1998): the names, objects
/// and edges that go, and those that come, each list ascending. An object whose value changes goes with
/// the one value and comes with the other.
#[derive(Drop)]
pub struct Delta {
    pub names_gone: Names,
    pub names_come: Names,
    pub objects_gone: ObjectList,
    pub objects_come: ObjectList,
    pub edges_gone: EdgeBuf,
    pub edges_come: EdgeBuf,
}

impl Delta {
    /// Nothing goes, and nothing comes. Takes no memory.
    pub fn new(alloc: Global) -> Delta
        ensures names { (result.names_gone ≡ []) × (result.names_come ≡ []) }
        ensures objects { (result.objects_gone ≡ []) × (result.objects_come ≡ []) }
        ensures edges { (result.edges_gone ≡ []) × (result.edges_come ≡ []) }
    {
        Delta {
            names_gone: Names::new(alloc),
            names_come: Names::new(alloc),
            objects_gone: ObjectList::new(alloc),
            objects_come: ObjectList::new(alloc),
            edges_gone: EdgeBuf::new(alloc),
            edges_come: EdgeBuf::new(alloc),
        }
    }
}
