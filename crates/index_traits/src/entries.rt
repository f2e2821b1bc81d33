ghost use Rattle.index_traits.specs.Types.{ValueEntry as TheEntry};

use lore_base::{Label, Listing, NoMemory, Oid, TryCopy, Value};
use std::alloc::Global;

/// The value of an object, under the label of an edge that enters it.
#[derive(Debug, Drop)]
pub struct ValueEntry {
    pub label: Label,
    pub value: Value,
    pub object: Oid,
}

impl TryCopy for ValueEntry {
    ghost Seen = { TheEntry };

    ghost seen = { λ entry. entry };

    fn try_copy(&self, alloc: Global) -> Result<Self, NoMemory> {
        Ok(ValueEntry {
            label: self.label,
            value: self.value.try_copy(alloc)?,
            object: self.object,
        })
    }
}

/// Value entries.
pub type EntryList = Listing<ValueEntry>;
