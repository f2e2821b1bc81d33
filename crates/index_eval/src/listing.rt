ghost use Rattle.std.specs.Prelude.{◌≡◌, ◌≢◌, ◌≤◌, AllPairs, IsTrue, IfOk, IfSome};
ghost use Rattle.index_traits.specs.Entries.{IsProbed};
ghost use Rattle.lore_base.specs.Paths.{path_tree, leaves};
ghost use Rattle.lore_base.specs.TargetSets.{ListsInOrder};
ghost use Rattle.lorel_bound.specs.Bound.{bound_cond, bound_operand, bound_path};
ghost use Rattle.lorel_bound.specs.Conditions.{at, compare, constant, exists};
ghost use Rattle.lorel_bound.specs.Conditions.{operand_paths, paths_of, same};
ghost use Rattle.lorel_bound.specs.Plans.{IsCandidate};
ghost use Rattle.lorel_eval.specs.Tests.{rest_leaves};
ghost use Rattle.index_eval.specs.Types.{Complex, LEAVES};
ghost use Rattle.index_eval.specs.Types.bound_starts;
ghost use Rattle.index_eval.specs.Indexes.{AreIndexes};
ghost use Rattle.index_eval.specs.inside.Listing.{AreEndsOf, AreObjectsOf};

use crate::ends::{Readers, objects_back};
use index_traits::{Adjacent, Links, ValueOf, Values};
use lore_base::limits::RANGES;
use lore_base::{Label, NoMemory, OidBuf, Op, Path, Steps, Value};
use lorel_bound::{BoundCond, BoundOperand, BoundPath, BoundStart};
use member_clues::{is_probed, knows_some, slot_at};
use planner::last_label;
use product_walk::{Route, WayBack};
use std::alloc::Global;
use std::sync::ledger::Ledger;

/// The objects of a condition: it holds of just the rows that have one of them in the slot.
#[derive(Drop)]
pub(crate) struct Listed {
    pub(crate) slot: u32,
    pub(crate) oids: OidBuf,
}

impl Listed {
    /// Whether these are the objects to tell of the slot: no other slot is known.
    pub(crate) fn is_asked(&self, known: &[bool; RANGES], slot: u32) -> bool
        ensures { IsTrue result → self.now.slot ≡ slot }
    {
        if knows_some(known) {
            return false;
        }
        self.slot == slot
    }
}

/// The objects of a condition that takes long walks from them: a comparison with a value, two paths
/// of which one starts at a name, or an `exists` over such a comparison. None for others.
pub(crate) fn listed_of<G: Adjacent + ValueOf, K: Links, V: Values, L: Ledger>(
    alloc: Global,
    readers: &Readers<'_, '_, G, K, V>,
    cond: &BoundCond,
    steps: &mut Steps<L>,
) -> Result<Option<Listed>, NoMemory>
    requires few { rest_leaves (paths_of (bound_cond cond.now)) ≤ LEAVES }
    requires distinct { AllPairs (λ a b. a ≢ b) readers.now.labels.now }
    requires indexes { AreIndexes (G.objects readers.now.graph.now) (G.edges readers.now.graph.now)
        (K.edges readers.now.links.now) (V.entries readers.now.values.now) }
    ensures { IfOk result (λ found. IfSome found (AreObjectsOf readers.now.labels.now
        (G.edges readers.now.graph.now) (G.objects readers.now.graph.now) (bound_cond cond.now))) }
{
    match cond {
        BoundCond::Compare { left, op, right } => {
            listed_compared(alloc, readers, left, *op, right, steps)
        }
        BoundCond::Exists { path, body } => listed_through(alloc, readers, path, body, steps),
        BoundCond::Same { left, right } => listed_met(alloc, readers, left, right, steps),
        _ => Ok(None),
    }
}

/// Whether it may pay to list the objects of the condition, or of a member of it: a path of it
/// takes long walks. Where that path starts isn't looked at, so perhaps none can be listed; no
/// promise rests on it.
pub fn may_be_listed(cond: &BoundCond) -> bool {
    match cond {
        BoundCond::And(members) => some_may_be_listed(members.as_slice()),
        _ => is_long_cond(cond),
    }
}

fn some_may_be_listed(members: &[BoundCond]) -> bool {
    'members: for member in members {
        if is_long_cond(member) {
            return true;
        }
    }
    false
}

fn is_long_cond(cond: &BoundCond) -> bool {
    match cond {
        BoundCond::Compare { left, right, .. } => is_long_asked(left, right),
        BoundCond::Exists { path, body } => is_long(&path.rest) || is_long_inside(body),
        BoundCond::Same { left, right } => some_is_long(&left.rest, &right.rest),
        _ => false,
    }
}

fn is_long_inside(body: &BoundCond) -> bool {
    match body {
        BoundCond::Compare { left, right, .. } => is_long_asked(left, right),
        _ => false,
    }
}

// Whether a long path is compared with a value.
fn is_long_asked(left: &BoundOperand, right: &BoundOperand) -> bool {
    match (left, right) {
        (BoundOperand::At(path), BoundOperand::Atom(_)) => is_long(&path.rest),
        _ => false,
    }
}

/// Whether a plan could begin with the values that the comparison asks for.
pub(crate) fn is_sought(left: &BoundOperand, op: Op, right: &BoundOperand) -> bool {
    match (left, right) {
        (BoundOperand::At(path), BoundOperand::Atom(value)) => {
            slot_at(path).is_some()
                && is_probed(op)
                && !value.is_complex()
                && last_label(&path.rest).is_some()
        }
        _ => false,
    }
}

// Whether a walk along the path may go on and on, or goes more ways than one.
fn is_long(path: &Path) -> bool {
    match path {
        Path::Step(_) => false,
        Path::Seq(parts) => has_long_part(parts.as_slice()),
        _ => true,
    }
}

fn some_is_long(first: &Path, second: &Path) -> bool {
    is_long(first) || is_long(second)
}

fn has_long_part(parts: &[Path]) -> bool {
    'parts: for part in parts {
        if !matches!(part, Path::Step(_)) {
            return true;
        }
    }
    false
}

// The objects of a comparison with a value.
fn listed_compared<G: Adjacent + ValueOf, K: Links, V: Values, L: Ledger>(
    alloc: Global,
    readers: &Readers<'_, '_, G, K, V>,
    left: &BoundOperand,
    op: Op,
    right: &BoundOperand,
    steps: &mut Steps<L>,
) -> Result<Option<Listed>, NoMemory>
    requires few { rest_leaves (operand_paths (bound_operand left.now)) ≤ LEAVES }
    requires distinct { AllPairs (λ a b. a ≢ b) readers.now.labels.now }
    requires indexes { AreIndexes (G.objects readers.now.graph.now) (G.edges readers.now.graph.now)
        (K.edges readers.now.links.now) (V.entries readers.now.values.now) }
    ensures { IfOk result (λ found. IfSome found (AreObjectsOf readers.now.labels.now
        (G.edges readers.now.graph.now) (G.objects readers.now.graph.now)
        (compare (bound_operand left.now) op (bound_operand right.now)))) }
{
    match (left, right) {
        (BoundOperand::At(path), BoundOperand::Atom(value)) => {
            listed_sought(alloc, readers, path, op, value, steps)
        }
        _ => Ok(None),
    }
}

// The same of a path and a value.
fn listed_sought<G: Adjacent + ValueOf, K: Links, V: Values, L: Ledger>(
    alloc: Global,
    readers: &Readers<'_, '_, G, K, V>,
    path: &BoundPath,
    op: Op,
    value: &Value,
    steps: &mut Steps<L>,
) -> Result<Option<Listed>, NoMemory>
    requires few { leaves (path_tree path.now.rest) ≤ LEAVES }
    requires distinct { AllPairs (λ a b. a ≢ b) readers.now.labels.now }
    requires indexes { AreIndexes (G.objects readers.now.graph.now) (G.edges readers.now.graph.now)
        (K.edges readers.now.links.now) (V.entries readers.now.values.now) }
    ensures { IfOk result (λ found. IfSome found (AreObjectsOf readers.now.labels.now
        (G.edges readers.now.graph.now) (G.objects readers.now.graph.now)
        (compare (at (bound_path path.now)) op (constant value.now)))) }
{
    if !is_long(&path.rest) {
        return Ok(None);
    }
    let Some(ends) = ends_for(alloc, readers, &path.rest, op, value)? else {
        return Ok(None);
    };
    let Some(slot) = slot_at(path) else {
        return Ok(None);
    };
    let way = WayBack::new(alloc, &path.rest)?;
    let oids = objects_back(alloc, readers, &way, &ends, steps)?;
    Ok(Some(Listed { slot, oids }))
}

// The objects of an `exists` over a comparison with a value.
fn listed_through<G: Adjacent + ValueOf, K: Links, V: Values, L: Ledger>(
    alloc: Global,
    readers: &Readers<'_, '_, G, K, V>,
    path: &BoundPath,
    body: &BoundCond,
    steps: &mut Steps<L>,
) -> Result<Option<Listed>, NoMemory>
    requires path { leaves (path_tree path.now.rest) ≤ LEAVES }
    requires body { rest_leaves (paths_of (bound_cond body.now)) ≤ LEAVES }
    requires distinct { AllPairs (λ a b. a ≢ b) readers.now.labels.now }
    requires indexes { AreIndexes (G.objects readers.now.graph.now) (G.edges readers.now.graph.now)
        (K.edges readers.now.links.now) (V.entries readers.now.values.now) }
    ensures { IfOk result (λ found. IfSome found (AreObjectsOf readers.now.labels.now
        (G.edges readers.now.graph.now) (G.objects readers.now.graph.now)
        (exists (bound_path path.now) (bound_cond body.now)))) }
{
    match body {
        BoundCond::Compare { left, op, right } => {
            listed_inside(alloc, readers, path, left, *op, right, steps)
        }
        _ => Ok(None),
    }
}

// The same of the sides of that comparison.
fn listed_inside<G: Adjacent + ValueOf, K: Links, V: Values, L: Ledger>(
    alloc: Global,
    readers: &Readers<'_, '_, G, K, V>,
    path: &BoundPath,
    left: &BoundOperand,
    op: Op,
    right: &BoundOperand,
    steps: &mut Steps<L>,
) -> Result<Option<Listed>, NoMemory>
    requires path { leaves (path_tree path.now.rest) ≤ LEAVES }
    requires few { rest_leaves (operand_paths (bound_operand left.now)) ≤ LEAVES }
    requires distinct { AllPairs (λ a b. a ≢ b) readers.now.labels.now }
    requires indexes { AreIndexes (G.objects readers.now.graph.now) (G.edges readers.now.graph.now)
        (K.edges readers.now.links.now) (V.entries readers.now.values.now) }
    ensures { IfOk result (λ found. IfSome found (AreObjectsOf readers.now.labels.now
        (G.edges readers.now.graph.now) (G.objects readers.now.graph.now)
        (exists (bound_path path.now)
        (compare (bound_operand left.now) op (bound_operand right.now))))) }
{
    match (left, right) {
        (BoundOperand::At(inner), BoundOperand::Atom(value)) => {
            listed_sought_through(alloc, readers, path, inner, op, value, steps)
        }
        _ => Ok(None),
    }
}

// The same of the path inside and a value.
fn listed_sought_through<G: Adjacent + ValueOf, K: Links, V: Values, L: Ledger>(
    alloc: Global,
    readers: &Readers<'_, '_, G, K, V>,
    path: &BoundPath,
    inner: &BoundPath,
    op: Op,
    value: &Value,
    steps: &mut Steps<L>,
) -> Result<Option<Listed>, NoMemory>
    requires path { leaves (path_tree path.now.rest) ≤ LEAVES }
    requires inner { leaves (path_tree inner.now.rest) ≤ LEAVES }
    requires distinct { AllPairs (λ a b. a ≢ b) readers.now.labels.now }
    requires indexes { AreIndexes (G.objects readers.now.graph.now) (G.edges readers.now.graph.now)
        (K.edges readers.now.links.now) (V.entries readers.now.values.now) }
    ensures { IfOk result (λ found. IfSome found (AreObjectsOf readers.now.labels.now
        (G.edges readers.now.graph.now) (G.objects readers.now.graph.now)
        (exists (bound_path path.now) (compare (at (bound_path inner.now)) op
        (constant value.now))))) }
{
    if !some_is_long(&path.rest, &inner.rest) {
        return Ok(None);
    }
    if !is_inside(inner.start) {
        return Ok(None);
    }
    let Some(ends) = ends_for(alloc, readers, &inner.rest, op, value)? else {
        return Ok(None);
    };
    let Some(slot) = slot_at(path) else {
        return Ok(None);
    };
    let within = WayBack::new(alloc, &inner.rest)?;
    let between = objects_back(alloc, readers, &within, &ends, steps)?;
    let way = WayBack::new(alloc, &path.rest)?;
    let oids = objects_back(alloc, readers, &way, &between, steps)?;
    Ok(Some(Listed { slot, oids }))
}

// Whether a path from there starts at the object of the outermost quantifier.
fn is_inside(start: BoundStart) -> bool
    ensures { IsTrue result → start ≡ bound_starts.Quantified 0 }
{
    match start {
        BoundStart::Quantified(0) => true,
        _ => false,
    }
}

// The objects of two paths that are to reach a same object, of which one starts at a name.
fn listed_met<G: Adjacent + ValueOf, K: Links, V: Values, L: Ledger>(
    alloc: Global,
    readers: &Readers<'_, '_, G, K, V>,
    left: &BoundPath,
    right: &BoundPath,
    steps: &mut Steps<L>,
) -> Result<Option<Listed>, NoMemory>
    requires left { leaves (path_tree left.now.rest) ≤ LEAVES }
    requires right { leaves (path_tree right.now.rest) ≤ LEAVES }
    requires indexes { AreIndexes (G.objects readers.now.graph.now) (G.edges readers.now.graph.now)
        (K.edges readers.now.links.now) (V.entries readers.now.values.now) }
    ensures { IfOk result (λ found. IfSome found (AreObjectsOf readers.now.labels.now
        (G.edges readers.now.graph.now) (G.objects readers.now.graph.now)
        (same (bound_path left.now) (bound_path right.now)))) }
{
    match left.start {
        BoundStart::Named(_) => listed_meeting(alloc, readers, right, left, steps),
        _ => listed_meeting(alloc, readers, left, right, steps),
    }
}

// The same, of which the other path starts at a name.
fn listed_meeting<G: Adjacent + ValueOf, K: Links, V: Values, L: Ledger>(
    alloc: Global,
    readers: &Readers<'_, '_, G, K, V>,
    path: &BoundPath,
    other: &BoundPath,
    steps: &mut Steps<L>,
) -> Result<Option<Listed>, NoMemory>
    requires path { leaves (path_tree path.now.rest) ≤ LEAVES }
    requires other { leaves (path_tree other.now.rest) ≤ LEAVES }
    requires indexes { AreIndexes (G.objects readers.now.graph.now) (G.edges readers.now.graph.now)
        (K.edges readers.now.links.now) (V.entries readers.now.values.now) }
    ensures own { IfOk result (λ found. IfSome found (AreObjectsOf readers.now.labels.now
        (G.edges readers.now.graph.now) (G.objects readers.now.graph.now)
        (same (bound_path path.now) (bound_path other.now)))) }
    ensures turned { IfOk result (λ found. IfSome found (AreObjectsOf readers.now.labels.now
        (G.edges readers.now.graph.now) (G.objects readers.now.graph.now)
        (same (bound_path other.now) (bound_path path.now)))) }
{
    if !is_long(&path.rest) {
        return Ok(None);
    }
    let Some(slot) = slot_at(path) else {
        return Ok(None);
    };
    let BoundStart::Named(named) = other.start else {
        return Ok(None);
    };
    let route = Route::new(alloc, &other.rest)?;
    let mut ends = OidBuf::new(alloc);
    route.reach(
        alloc,
        readers.graph,
        readers.labels,
        named,
        &mut ends,
        steps,
    )?;
    let way = WayBack::new(alloc, &path.rest)?;
    let oids = objects_back(alloc, readers, &way, &ends, steps)?;
    Ok(Some(Listed { slot, oids }))
}

// The objects to which the path may lead whose values compare so; None where they can't be sought.
fn ends_for<G, K, V: Values>(
    alloc: Global,
    readers: &Readers<'_, '_, G, K, V>,
    path: &Path,
    op: Op,
    value: &Value,
) -> Result<Option<OidBuf>, NoMemory>
    ensures { IfOk result (λ found. IfSome found (AreEndsOf readers.now.labels.now
        (V.entries readers.now.values.now) (path_tree path.now) op value.now)) }
{
    if !is_probed(op) {
        return Ok(None);
    }
    if value.is_complex() {
        return Ok(None);
    }
    let Some(text) = last_label(path) else {
        return Ok(None);
    };
    let label = readers.labels.find(text);
    let ends = candidates(alloc, readers.values, label, op, value)?;
    Ok(Some(ends))
}

// The objects that have such a value under the label, ascending, each once.
fn candidates<V: Values>(
    alloc: Global,
    values: &V,
    label: Option<Label>,
    op: Op,
    value: &Value,
) -> Result<OidBuf, NoMemory>
    requires op { IsProbed op }
    requires value { value.now ≢ Complex }
    ensures { IfOk result (ListsInOrder (IsCandidate (V.entries values.now) label op value.now)) }
{
    let mut oids = OidBuf::new(alloc);
    if let Some(label) = label {
        values.probe(label, op, value, &mut oids)?;
    }
    Ok(oids)
}
