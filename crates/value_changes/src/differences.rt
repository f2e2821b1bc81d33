ghost use Rattle.std.specs.Prelude.{◌≡◌, IfOk, OnOk};
ghost use Rattle.lore_base.specs.Databases.{AreAscendingEdges};
ghost use Rattle.value_changes.specs.EntryChanges.{State, IsSettled, AreGraphChanges, AreEntryChanges};
ghost use Rattle.value_changes.specs.Reads.{AreRead, ReadsChanged};

use crate::entered::entered_before;
use crate::entries::entries_of;
use crate::pairs::{moving_pairs, pairs_before, pairs_then};
use crate::touched::{given_objects, touched_objects};
use index_traits::{EntryList, Links, ValueOf};
use lore_base::{Edge, NoMemory, Oid, Steps, Value};
use read_costs::entering_edges;
use std::alloc::Global;
use std::sync::ledger::Ledger;

/// The value entries that a change takes away and those that it brings, each in the order of label
/// and object.
#[derive(Drop)]
pub struct EntryChanges {
    pub gone: EntryList,
    pub come: EntryList,
}

/// How a graph changes: the edges that are lost, those that are fresh, and the objects that values
/// are given to, each in any order. `added` are those of the edges that are read which weren't there
/// before: the fresh ones, or more where some of them vanish with their parents.
#[derive(Clone, Copy)]
pub struct GraphChanges<'a> {
    pub lost: &'a [Edge],
    pub fresh: &'a [Edge],
    pub given: &'a [(Oid, Value)],
    pub added: &'a [Edge],
}

/// The value entries that go and those that come with these changes. `links` has the added edges,
/// and those of before that aren't lost; it may have lost ones too. `before` has the values of
/// before and `after` those of afterwards. Each object that a lost or a fresh edge enters, or that a
/// value is given to, is read once, by the edges in `links` that enter it, where it was live and has an
/// atomic value before or afterwards.
pub fn entry_changes<K: Links, V: ValueOf, W: ValueOf, L: Ledger>(
    alloc: Global,
    links: &K,
    before: &V,
    after: &W,
    changes: GraphChanges,
    steps: &mut Steps<L>,
) -> Result<EntryChanges, NoMemory>
    ensures entries { IfOk result (λ entries. (old new : State) → old.objects ≡ V.objects before.now
        → new.objects ≡ W.objects after.now → IsSettled old → IsSettled new
        → AreGraphChanges old new changes.entry.lost.now changes.entry.fresh.now changes.entry.given.now
        → AreRead (K.edges links.now) old.edges changes.entry.lost.now changes.entry.added.now
        → AreEntryChanges old new entries.gone entries.come) }
    ensures reads { OnOk result (AreAscendingEdges (K.edges links.now)
        → ReadsChanged (K.edges links.now) changes.entry.lost.now changes.entry.fresh.now
        changes.entry.given.now (V.objects before.now) (W.objects after.now)
        steps.old steps.new) }
{
    let GraphChanges {
        lost,
        fresh,
        given,
        added,
    } = changes;
    let given = given_objects(alloc, given, before, after)?;
    let touched = touched_objects(alloc, lost, fresh, given.as_slice(), before, after)?;
    let read = entering_edges(alloc, links, touched.as_slice(), steps)?;
    let entering = entered_before(alloc, read.as_slice(), added, lost)?;
    let old = pairs_before(alloc, entering.as_slice(), before)?;
    let new = pairs_then(alloc, entering.as_slice(), lost, fresh, after)?;
    let leaving = moving_pairs(alloc, old.as_slice(), new.as_slice(), given.as_slice())?;
    let coming = moving_pairs(alloc, new.as_slice(), old.as_slice(), given.as_slice())?;
    let gone = entries_of(alloc, leaving.as_slice(), before)?;
    let come = entries_of(alloc, coming.as_slice(), after)?;
    Ok(EntryChanges { gone, come })
}
