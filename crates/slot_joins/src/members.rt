ghost use Rattle.std.specs.Prelude.{◌≡◌, [], Some, map, All, IfOk, IfSome, OnOk};
ghost use Rattle.lore_base.specs.Paths.{path_tree};
ghost use Rattle.lorel_bound.specs.Bound.{bound_cond, bound_path, conds_from};
ghost use Rattle.lorel_bound.specs.Conditions.{and, at, compare};
ghost use Rattle.index_eval.specs.Indexes.{AreIndexes};
ghost use Rattle.slot_joins.specs.Types.{Eq};
ghost use Rattle.slot_joins.specs.Types.bound_starts;
ghost use Rattle.slot_joins.specs.inside.Joins.{IsJoinIn, JoinsPaths, AddsJoins};
ghost use Rattle.slot_joins.specs.inside.Joins.{IsTableOf};

use crate::indexed::Indexed;
use crate::joins::Join;
use crate::worth::{joins_slots, paths_of};
use index_traits::{Adjacent, Links, ValueOf, Values};
use join_tables::JoinTable;
use lore_base::{NoMemory, Path, Steps};
use lorel_bound::{BoundCond, BoundPath};
use member_clues::slot_at;
use std::alloc::Global;
use std::sync::ledger::Ledger;
use word_walks::{OnlyWord, only_word};

// Tables have at most so many objects together for each row that may look up in them.
const OBJECTS_FOR_EACH: u32 = 6;

/// No joins. Takes no memory.
pub(crate) fn no_joins(alloc: Global) -> Vec<Join>
    ensures { result.items ≡ [] }
{
    Vec::new(alloc)
}

/// The joins that a condition asks for, each from one of the slots to a later one, with tables
/// that pay where so many rows are found.
pub(crate) fn joins_of<G: Adjacent + ValueOf, K: Links, V: Values, L: Ledger>(
    alloc: Global,
    indexed: &Indexed<'_, G, K, V>,
    cond: &BoundCond,
    slots: &[u32],
    count: u32,
    steps: &mut Steps<L>,
) -> Result<Vec<Join>, NoMemory>
    requires indexes { AreIndexes (G.objects indexed.now.graph.now) (G.edges indexed.now.graph.now)
        (K.edges indexed.now.links.now) (V.entries indexed.now.values.now) }
    ensures { IfOk result (λ joins. All (IsJoinIn indexed.now.labels.now
        (G.edges indexed.now.graph.now) (G.objects indexed.now.graph.now)
        (Some (bound_cond cond.now))) joins.items) }
{
    let mut joins = no_joins(alloc);
    let mut room = count.saturating_mul(OBJECTS_FOR_EACH) as usize;
    push_joins(alloc, indexed, cond, slots, &mut room, &mut joins, steps)?;
    Ok(joins)
}

// Puts the joins of the condition, or of the members of an `and`, behind the others. Their tables
// take of the room that is left.
fn push_joins<G: Adjacent + ValueOf, K: Links, V: Values, L: Ledger>(
    alloc: Global,
    indexed: &Indexed<'_, G, K, V>,
    cond: &BoundCond,
    slots: &[u32],
    room: &mut usize,
    joins: &mut Vec<Join>,
    steps: &mut Steps<L>,
) -> Result<(), NoMemory>
    requires indexes { AreIndexes (G.objects indexed.now.graph.now) (G.edges indexed.now.graph.now)
        (K.edges indexed.now.links.now) (V.entries indexed.now.values.now) }
    ensures { OnOk result (AddsJoins indexed.now.labels.now
        (G.edges indexed.now.graph.now) (G.objects indexed.now.graph.now)
        (bound_cond cond.now) joins.old.items joins.new.items) }
{
    match cond {
        BoundCond::And(members) => {
            push_each(
                alloc,
                indexed,
                members.as_slice(),
                slots,
                room,
                joins,
                steps,
            )
        }
        _ => push_join(alloc, indexed, cond, slots, room, joins, steps),
    }
}

fn push_each<G: Adjacent + ValueOf, K: Links, V: Values, L: Ledger>(
    alloc: Global,
    indexed: &Indexed<'_, G, K, V>,
    members: &[BoundCond],
    slots: &[u32],
    room: &mut usize,
    joins: &mut Vec<Join>,
    steps: &mut Steps<L>,
) -> Result<(), NoMemory>
    requires indexes { AreIndexes (G.objects indexed.now.graph.now) (G.edges indexed.now.graph.now)
        (K.edges indexed.now.links.now) (V.entries indexed.now.values.now) }
    ensures { OnOk result (AddsJoins indexed.now.labels.now
        (G.edges indexed.now.graph.now) (G.objects indexed.now.graph.now)
        (and (conds_from (map bound_cond members.now))) joins.old.items joins.new.items) }
{
    'members: for member in members {
        push_join(alloc, indexed, member, slots, room, joins, steps)?;
    }
    Ok(())
}

// The same of a condition that is no `and`. Behind a comparison of slots that gets no table none
// is made: such a one may tell fewer objects, and would not be asked.
fn push_join<G: Adjacent + ValueOf, K: Links, V: Values, L: Ledger>(
    alloc: Global,
    indexed: &Indexed<'_, G, K, V>,
    cond: &BoundCond,
    slots: &[u32],
    room: &mut usize,
    joins: &mut Vec<Join>,
    steps: &mut Steps<L>,
) -> Result<(), NoMemory>
    requires indexes { AreIndexes (G.objects indexed.now.graph.now) (G.edges indexed.now.graph.now)
        (K.edges indexed.now.links.now) (V.entries indexed.now.values.now) }
    ensures { OnOk result (AddsJoins indexed.now.labels.now
        (G.edges indexed.now.graph.now) (G.objects indexed.now.graph.now)
        (bound_cond cond.now) joins.old.items joins.new.items) }
{
    if !joins_slots(cond) {
        return Ok(());
    }
    let Some((left, right)) = paths_of(cond) else {
        return Ok(());
    };
    let Some(join) = join_of(alloc, indexed, left, right, slots, *room, steps)? else {
        *room = 0;
        return Ok(());
    };
    *room = room.saturating_sub(join.table.len());
    joins.push(join)?;
    Ok(())
}

// The join of two paths, from the one whose slot comes first.
fn join_of<G: Adjacent + ValueOf, K: Links, V: Values, L: Ledger>(
    alloc: Global,
    indexed: &Indexed<'_, G, K, V>,
    left: &BoundPath,
    right: &BoundPath,
    slots: &[u32],
    room: usize,
    steps: &mut Steps<L>,
) -> Result<Option<Join>, NoMemory>
    requires indexes { AreIndexes (G.objects indexed.now.graph.now) (G.edges indexed.now.graph.now)
        (K.edges indexed.now.links.now) (V.entries indexed.now.values.now) }
    ensures { IfOk result (λ found. IfSome found (IsJoinIn indexed.now.labels.now
        (G.edges indexed.now.graph.now) (G.objects indexed.now.graph.now)
        (Some (compare (at (bound_path left.now)) Eq (at (bound_path right.now)))))) }
{
    if is_before(slots, left, right) {
        join_by(alloc, indexed, left, right, room, steps)
    } else {
        join_by(alloc, indexed, right, left, room, steps)
    }
}

// Whether the path starts at a slot that comes before the other's.
fn is_before(slots: &[u32], path: &BoundPath, other: &BoundPath) -> bool {
    'slots: for slot in slots {
        if slot_at(other) == Some(*slot) {
            return false;
        }
        if slot_at(path) == Some(*slot) {
            return true;
        }
    }
    false
}

// The join from the slot of one path to another slot, where both paths are plain labels.
fn join_by<G: Adjacent + ValueOf, K: Links, V: Values, L: Ledger>(
    alloc: Global,
    indexed: &Indexed<'_, G, K, V>,
    own: &BoundPath,
    sought: &BoundPath,
    room: usize,
    steps: &mut Steps<L>,
) -> Result<Option<Join>, NoMemory>
    requires indexes { AreIndexes (G.objects indexed.now.graph.now) (G.edges indexed.now.graph.now)
        (K.edges indexed.now.links.now) (V.entries indexed.now.values.now) }
    ensures { IfOk result (λ found. IfSome found (JoinsPaths indexed.now.labels.now
        (G.edges indexed.now.graph.now) (G.objects indexed.now.graph.now)
        (bound_path own.now) (bound_path sought.now))) }
{
    let Some((start, slot)) = slots_of(own, sought) else {
        return Ok(None);
    };
    let Some(word) = only_word(alloc, &own.rest, indexed.labels)? else {
        return Ok(None);
    };
    let Some(table) = table_of(alloc, indexed, &sought.rest, room, steps)? else {
        return Ok(None);
    };
    Ok(Some(Join {
        start,
        word,
        slot,
        table,
    }))
}

// The slots at which the paths start; None where they are one slot.
fn slots_of(own: &BoundPath, sought: &BoundPath) -> Option<(u32, u32)>
    ensures own { IfSome result (λ slots. own.now.start ≡ bound_starts.Slot slots.0) }
    ensures sought { IfSome result (λ slots. sought.now.start ≡ bound_starts.Slot slots.1) }
{
    let Some(start) = slot_at(own) else {
        return None;
    };
    let Some(slot) = slot_at(sought) else {
        return None;
    };
    if start == slot {
        return None;
    }
    Some((start, slot))
}

// The table of the objects that the path leads from, if there is room and the path is plain
// labels: each label may list as many again.
fn table_of<G: Adjacent + ValueOf, K: Links, V: Values, L: Ledger>(
    alloc: Global,
    indexed: &Indexed<'_, G, K, V>,
    path: &Path,
    room: usize,
    steps: &mut Steps<L>,
) -> Result<Option<JoinTable>, NoMemory>
    requires indexes { AreIndexes (G.objects indexed.now.graph.now) (G.edges indexed.now.graph.now)
        (K.edges indexed.now.links.now) (V.entries indexed.now.values.now) }
    ensures { IfOk result (λ found. IfSome found (IsTableOf indexed.now.labels.now
        (K.edges indexed.now.links.now) (V.entries indexed.now.values.now)
        (path_tree path.now))) }
{
    let Some(only) = only_word(alloc, path, indexed.labels)? else {
        return Ok(None);
    };
    let OnlyWord::Labels(word) = only else {
        return Ok(None);
    };
    let (graph, links, values) = (indexed.graph, indexed.links, indexed.values);
    let most = room / word.len().max(1);
    JoinTable::new(alloc, graph, links, values, word.as_slice(), most, steps)
}
