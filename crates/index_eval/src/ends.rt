ghost use Rattle.std.specs.Prelude.{◌≡◌, [], Some, All, IfOk, IfSome, OnOk};
ghost use Rattle.index_traits.specs.Entries.{IsProbed};
ghost use Rattle.lorel_bound.specs.SlotRows.{BoundStartsAt};
ghost use Rattle.index_eval.specs.Types.{Oid as TheOid};
ghost use Rattle.lore_base.specs.Paths.{path_tree};
ghost use Rattle.lore_base.specs.TargetSets.{ListsInOrder};
ghost use Rattle.product_walk.specs.ProductWalks.{ReachesInto};
ghost use Rattle.lorel_bound.specs.Conditions.{at};
ghost use Rattle.index_eval.specs.inside.Ends.{TakesEnds, TakesEndsFor, TakesEndsOf};
ghost use Rattle.index_eval.specs.inside.Ends.{HasComparedBy, HasCompared, HasMet, HasEnds};
ghost use Rattle.index_eval.specs.inside.Ends.{IsProbedEnd, LeadToEnds, AreTold};

use crate::pace::{Pace, more_ends};
use index_traits::{Adjacent, Links, Row, ValueOf, Values};
use lore_base::limits::RANGES;
use lore_base::{NoMemory, Oid, OidBuf, Op, Steps, Value};
use lorel_bound::BoundStart;
use lorel_eval::in_slot;
use member_clues::{Clue, Comparison, End, Given, Meeting, is_asked};
use oem_labels::LabelTable;
use product_walk::{Route, WayBack};
use std::alloc::Global;
use std::sync::ledger::Ledger;

/// What the objects of a clue are found in, how many may be at its end, and what was done so far.
#[derive(Drop)]
pub(crate) struct Readers<'r, 'p, G, K, V> {
    pub(crate) graph: &'r G,
    pub(crate) labels: &'r LabelTable,
    pub(crate) links: &'r K,
    pub(crate) values: &'r V,
    pub(crate) most: usize,
    pub(crate) pace: &'p Pace,
}

/// The objects that a clue tells, of those to be asked for the slot: the first at whose end are few
/// objects, or else the first with no more there than the rows that were tested allow. None where
/// no clue tells them.
pub(crate) fn objects_in_turn<G: Adjacent + ValueOf, K: Links, V: Values, L: Ledger>(
    alloc: Global,
    readers: &Readers<'_, '_, G, K, V>,
    clues: &[Clue<'_>],
    known: &[bool; RANGES],
    slot: u32,
    row: &Row,
    steps: &mut Steps<L>,
) -> Result<Option<OidBuf>, NoMemory>
    requires { All (λ clue. IsProbedEnd clue.end) clues.now }
    ensures { IfOk result (λ found. IfSome found (AreTold readers.now.labels.now
        (G.edges readers.now.graph.now) (G.objects readers.now.graph.now)
        (K.edges readers.now.links.now) (V.entries readers.now.values.now)
        clues.now known.now slot row.now)) }
{
    let found = objects_of_first(alloc, readers, clues, known, slot, row, steps)?;
    if found.is_some() {
        return Ok(found);
    }
    let most = more_ends(known, readers.pace);
    if most <= readers.most {
        return Ok(None);
    }
    let more = Readers {
        graph: readers.graph,
        labels: readers.labels,
        links: readers.links,
        values: readers.values,
        most,
        pace: readers.pace,
    };
    objects_of_first(alloc, &more, clues, known, slot, row, steps)
}

// The objects that the first of these clues tells at whose end aren't too many.
fn objects_of_first<G: Adjacent + ValueOf, K: Links, V: Values, L: Ledger>(
    alloc: Global,
    readers: &Readers<'_, '_, G, K, V>,
    clues: &[Clue<'_>],
    known: &[bool; RANGES],
    slot: u32,
    row: &Row,
    steps: &mut Steps<L>,
) -> Result<Option<OidBuf>, NoMemory>
    requires { All (λ clue. IsProbedEnd clue.end) clues.now }
    ensures { IfOk result (λ found. IfSome found (AreTold readers.now.labels.now
        (G.edges readers.now.graph.now) (G.objects readers.now.graph.now)
        (K.edges readers.now.links.now) (V.entries readers.now.values.now)
        clues.now known.now slot row.now)) }
{
    'clues: for clue in clues {
        if is_asked(clue, known, slot) {
            let found = objects_by(alloc, readers, clue, row, steps)?;
            if found.is_some() {
                return Ok(found);
            }
        }
    }
    Ok(None)
}

/// The objects from which the clue's path leads to its end; None where too many objects are there.
pub(crate) fn objects_by<G: Adjacent + ValueOf, K: Links, V: Values, L: Ledger>(
    alloc: Global,
    readers: &Readers<'_, '_, G, K, V>,
    clue: &Clue<'_>,
    row: &Row,
    steps: &mut Steps<L>,
) -> Result<Option<OidBuf>, NoMemory>
    requires { IsProbedEnd clue.now.end }
    ensures { IfOk result (λ found. IfSome found (LeadToEnds readers.now.labels.now
        (G.edges readers.now.graph.now) (G.objects readers.now.graph.now)
        (K.edges readers.now.links.now) (V.entries readers.now.values.now) row.now clue.now)) }
{
    let Some(ends) = ends_of(alloc, readers, &clue.end, row, steps)? else {
        return Ok(None);
    };
    readers.pace.note_ends(ends.len());
    let found = objects_back(alloc, readers, &clue.way, &ends, steps)?;
    match &clue.through {
        Some(first) => {
            let oids = objects_back(alloc, readers, first, &found, steps)?;
            Ok(Some(oids))
        }
        None => Ok(Some(found)),
    }
}

/// The objects from which the way leads to one of these.
pub(crate) fn objects_back<G, K: Links, V, L: Ledger>(
    alloc: Global,
    readers: &Readers<'_, '_, G, K, V>,
    way: &WayBack<'_>,
    to: &OidBuf,
    steps: &mut Steps<L>,
) -> Result<OidBuf, NoMemory>
    ensures { IfOk result (ListsInOrder (ReachesInto readers.now.labels.now
        (K.edges readers.now.links.now) (path_tree way.now) to.now)) }
{
    let mut oids = OidBuf::new(alloc);
    way.reach_back(alloc, readers.links, readers.labels, to, &mut oids, steps)?;
    Ok(oids)
}

// The objects at the end of a clue; None where there are too many.
fn ends_of<G: Adjacent + ValueOf, K, V: Values, L: Ledger>(
    alloc: Global,
    readers: &Readers<'_, '_, G, K, V>,
    end: &End<'_>,
    row: &Row,
    steps: &mut Steps<L>,
) -> Result<Option<OidBuf>, NoMemory>
    requires { IsProbedEnd end.now }
    ensures { IfOk result (λ found. IfSome found (HasEnds readers.now.labels.now
        (G.edges readers.now.graph.now) (G.objects readers.now.graph.now)
        (V.entries readers.now.values.now) row.now end.now)) }
{
    match end {
        End::Compared(comparison) => ends_compared(alloc, readers, comparison, row, steps),
        End::Met(meeting) => ends_met(alloc, readers, meeting, row, steps),
    }
}

// The objects that the other path reaches; None where there are too many.
fn ends_met<G: Adjacent, K, V, L: Ledger>(
    alloc: Global,
    readers: &Readers<'_, '_, G, K, V>,
    meeting: &Meeting<'_>,
    row: &Row,
    steps: &mut Steps<L>,
) -> Result<Option<OidBuf>, NoMemory>
    ensures { IfOk result (λ found. IfSome found (HasMet readers.now.labels.now
        (G.edges readers.now.graph.now) row.now meeting.now)) }
{
    let Some(from) = object_of(meeting.start, row) else {
        return Ok(None);
    };
    let mut ends = OidBuf::new(alloc);
    meeting.route.reach(alloc, readers.graph, readers.labels, from, &mut ends, steps)?;
    if ends.len() > readers.most {
        return Ok(None);
    }
    Ok(Some(ends))
}

// The objects that the label enters whose values compare so with what is given; None where
// there are too many.
fn ends_compared<G: Adjacent + ValueOf, K, V: Values, L: Ledger>(
    alloc: Global,
    readers: &Readers<'_, '_, G, K, V>,
    comparison: &Comparison<'_>,
    row: &Row,
    steps: &mut Steps<L>,
) -> Result<Option<OidBuf>, NoMemory>
    requires { IsProbed comparison.now.op }
    ensures { IfOk result (λ found. IfSome found (HasCompared readers.now.labels.now
        (G.edges readers.now.graph.now) (G.objects readers.now.graph.now)
        (V.entries readers.now.values.now) row.now comparison.now)) }
{
    match &comparison.given {
        Given::Atom(value) => ends_of_value(alloc, readers, comparison, value),
        Given::At { start, route } => {
            ends_of_path(alloc, readers, comparison, *start, route, row, steps)
        }
    }
}

// The same for a value.
fn ends_of_value<G, K, V: Values>(
    alloc: Global,
    readers: &Readers<'_, '_, G, K, V>,
    comparison: &Comparison<'_>,
    value: &Value,
) -> Result<Option<OidBuf>, NoMemory>
    requires { IsProbed comparison.now.op }
    ensures { IfOk result (λ found. IfSome found
        (TakesEnds (V.entries readers.now.values.now) comparison.now value.now [])) }
{
    let mut ends = OidBuf::new(alloc);
    append_ends(readers.values, comparison, value, &mut ends)?;
    Ok(Some(ends))
}

// The same for the values of all objects that a path reaches.
fn ends_of_path<G: Adjacent + ValueOf, K, V: Values, L: Ledger>(
    alloc: Global,
    readers: &Readers<'_, '_, G, K, V>,
    comparison: &Comparison<'_>,
    start: BoundStart,
    route: &Route<'_>,
    row: &Row,
    steps: &mut Steps<L>,
) -> Result<Option<OidBuf>, NoMemory>
    requires { IsProbed comparison.now.op }
    ensures { IfOk result (λ found. IfSome found (HasComparedBy readers.now.labels.now
        (G.edges readers.now.graph.now) (G.objects readers.now.graph.now)
        (V.entries readers.now.values.now) row.now comparison.now
        (at (record { start = start; rest = path_tree route.now })))) }
{
    let Some(from) = object_of(start, row) else {
        return Ok(None);
    };
    let mut found = OidBuf::new(alloc);
    route.reach(
        alloc,
        readers.graph,
        readers.labels,
        from,
        &mut found,
        steps,
    )?;
    ends_of_each(alloc, readers, comparison, found.as_slice())
}

// The ends for the values of all these objects; None where there are too many. Most often they are
// few, so those that are equal are listed without being counted first.
fn ends_of_each<G: ValueOf, K, V: Values>(
    alloc: Global,
    readers: &Readers<'_, '_, G, K, V>,
    comparison: &Comparison<'_>,
    found: &[Oid],
) -> Result<Option<OidBuf>, NoMemory>
    requires { IsProbed comparison.now.op }
    ensures { IfOk result (λ ends. IfSome ends (TakesEndsOf (G.objects readers.now.graph.now)
        (V.entries readers.now.values.now) comparison.now found.now)) }
{
    let mut ends = OidBuf::new(alloc);
    'found: for oid in found {
        if !may_list_more(readers, comparison, *oid, ends.len()) {
            return Ok(None);
        }
        append_ends_of(readers, comparison, *oid, &mut ends)?;
        if ends.len() > readers.most {
            readers.pace.note_too_many();
            return Ok(None);
        }
    }
    Ok(Some(ends))
}

// Whether to list the ends for the value of an object too, where so many are listed. They are
// counted to tell, but for those that are equal, as long as no ends were listed in vain.
fn may_list_more<G: ValueOf, K, V: Values>(
    readers: &Readers<'_, '_, G, K, V>,
    comparison: &Comparison<'_>,
    from: Oid,
    listed: usize,
) -> bool
    requires { IsProbed comparison.now.op }
{
    if matches!(comparison.op, Op::Eq) && !readers.pace.counts_first() {
        return true;
    }
    let count = count_of_ends(readers, comparison, from);
    listed.saturating_add(count as usize) <= readers.most
}

// How many ends there are for the value of an object. None is listed.
fn count_of_ends<G: ValueOf, K, V: Values>(
    readers: &Readers<'_, '_, G, K, V>,
    comparison: &Comparison<'_>,
    from: Oid,
) -> u32
    requires { IsProbed comparison.now.op }
{
    let Some(label) = comparison.label else {
        return 0;
    };
    let Some(value) = readers.graph.value_of(from) else {
        return 0;
    };
    if value.is_complex() {
        return 0;
    }
    readers.values.probe_count(label, comparison.op, value)
}

// Appends the ends for the value of an object.
fn append_ends_of<G: ValueOf, K, V: Values>(
    readers: &Readers<'_, '_, G, K, V>,
    comparison: &Comparison<'_>,
    from: Oid,
    ends: &mut OidBuf,
) -> Result<(), NoMemory>
    requires { IsProbed comparison.now.op }
    ensures { OnOk result (TakesEndsFor (G.objects readers.now.graph.now)
        (V.entries readers.now.values.now) comparison.now from ends.old ends.new) }
{
    match readers.graph.value_of(from) {
        Some(value) => append_ends(readers.values, comparison, value, ends),
        None => Ok(()),
    }
}

// Appends the ends for a value: none compares with a complex one, and none has a label that no edge
// has.
fn append_ends<V: Values>(
    values: &V,
    comparison: &Comparison<'_>,
    value: &Value,
    ends: &mut OidBuf,
) -> Result<(), NoMemory>
    requires { IsProbed comparison.now.op }
    ensures { OnOk result
        (TakesEnds (V.entries values.now) comparison.now value.now ends.old ends.new) }
{
    let Some(label) = comparison.label else {
        return Ok(());
    };
    if value.is_complex() {
        return Ok(());
    }
    values.probe(label, comparison.op, value, ends)
}

// The object of a start; None where the row has none.
fn object_of(start: BoundStart, row: &Row) -> Option<Oid>
    ensures { (oid : TheOid) → BoundStartsAt row.now [] start oid → result ≡ Some oid }
{
    match start {
        BoundStart::Named(oid) => Some(oid),
        BoundStart::Slot(slot) => in_slot(row, slot),
        BoundStart::Quantified(_) => None,
    }
}
