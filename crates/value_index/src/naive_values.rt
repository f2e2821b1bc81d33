ghost use Rattle.std.specs.Prelude.{◌≡◌, ◌↔◌, ◌<◌, ◌^◌, length, IsTrue};
ghost use Rattle.index_traits.specs.Entries.{AreAscendingEntries};
ghost use Rattle.value_index.specs.inside.Matches.{IsMatch};

use index_traits::{EntryList, ValueEntry, Values};
use lore_base::{Label, NoMemory, OidBuf, Op, Value};
use oem_atom::compare;
use std::marker::Model;

/// Value entries as a plain list, searched by going over the whole of it. Contracts see it as that
/// list.
#[derive(Drop)]
pub struct NaiveValues {
    entries: EntryList,
}

impl Model for NaiveValues {
    ghost use Rattle.std.specs.Prelude.{List};
    ghost use Rattle.value_index.specs.Types.{ValueEntry};
    ghost use Rattle.value_index.specs.inside.Counted.{AreCounted};

    ghost Value = { List ValueEntry };

    ghost view = { λ v. v.entries };

    ghost invariant = { λ v. AreCounted v.entries };
}

impl NaiveValues {
    /// The plain form of these entries, which ascend by label and object and are fewer than
    /// 4,294,967,296. Takes no memory.
    pub fn new(entries: EntryList) -> NaiveValues
        requires ascend { AreAscendingEntries entries }
        requires few { length entries < 2 ^ 32 }
        ensures { result ≡ entries }
    {
        NaiveValues { entries }
    }
}

impl Values for NaiveValues {
    ghost entries = { λ v. v };

    fn probe(&self, label: Label, op: Op, value: &Value, buf: &mut OidBuf) -> Result<(), NoMemory> {
        'entries: for entry in self.entries.as_slice() {
            if is_match(entry, label, op, value) {
                buf.push(entry.object)?;
            }
        }
        Ok(())
    }

    fn probe_count(&self, label: Label, op: Op, value: &Value) -> u32 {
        let mut count = 0;
        'entries: for entry in self.entries.as_slice() {
            if is_match(entry, label, op, value) {
                count += 1;
            }
        }
        count
    }
}

// Whether the entry has the label and a value that compares so.
fn is_match(entry: &ValueEntry, label: Label, op: Op, value: &Value) -> bool
    ensures { IsTrue result ↔ IsMatch label op value.now entry.now }
{
    entry.label == label && compare(&entry.value, op, value)
}
