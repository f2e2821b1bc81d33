ghost use Rattle.std.specs.Prelude.{IfOk};
ghost use Rattle.index_traits.specs.Entries.{entry_cmp};
ghost use Rattle.sorted_list.specs.SortedLists.{Ascends};
ghost use Rattle.value_changes.specs.inside.Sets.{AreSetOf};
ghost use Rattle.value_changes.specs.inside.Pairs.{pair_cmp};
ghost use Rattle.value_changes.specs.inside.PairEntries.{IsPairEntry};

use crate::pairs::Pair;
use crate::valued::atomic_value;
use index_traits::{EntryList, ValueEntry, ValueOf};
use lore_base::{NoMemory, TryCopy};
use std::alloc::Global;

// The entries of the pairs whose objects have atomic values, in the same order.
pub(crate) fn entries_of<V: ValueOf>(
    alloc: Global,
    pairs: &[Pair],
    values: &V,
) -> Result<EntryList, NoMemory>
    requires { Ascends pair_cmp pairs.now }
    ensures { IfOk result
        (λ entries. AreSetOf entry_cmp (IsPairEntry (V.objects values.now) pairs.now) entries) }
{
    let mut entries = EntryList::with_capacity(alloc, pairs.len())?;
    'pairs: for pair in pairs {
        if let Some(value) = atomic_value(values, pair.object) {
            entries.push(ValueEntry {
                label: pair.label,
                value: value.try_copy(alloc)?,
                object: pair.object,
            })?;
        }
    }
    Ok(entries)
}
