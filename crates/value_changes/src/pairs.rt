ghost use Rattle.std.specs.Prelude.{◌≡◌, ◌⊎◌, true, false, Contains, IfOk, OnOk};
ghost use Rattle.lore_base.specs.Walks.{edge_cmp};
ghost use Rattle.sorted_list.specs.SortedLists.{Ascends};
ghost use Rattle.value_changes.specs.inside.Sets.{AreSetOf, AreAdded};
ghost use Rattle.value_changes.specs.inside.Touched.{oid_cmp};
ghost use Rattle.value_changes.specs.inside.Pairs.{pair_cmp, pair_of, AreKept};
ghost use Rattle.value_changes.specs.inside.Pairs.{IsAtomic, IsAtomicPairOf, IsThere, IsMoving};

use crate::bisection::is_among;
use crate::valued::has_atom;
use index_traits::ValueOf;
use key_sort::{Key, set_by_keys};
use lore_base::{Edge, EdgeBuf, Label, Listing, NoMemory, Oid};
use std::alloc::Global;
use strand_sort::sorted_set;

// A label and an object that an edge with the label enters.
#[derive(Clone, Copy, PartialEq, Eq, PartialOrd, Ord)]
pub(crate) struct Pair {
    pub(crate) label: Label,
    pub(crate) object: Oid,
}

// The key of a pair's object.
struct ByObject;

impl Key<Pair> for ByObject {
    ghost key_of = { λ pair. pair.object.0 };

    fn key(pair: &Pair) -> u32 {
        pair.object.0
    }
}

// The key of a pair's label.
struct ByLabel;

impl Key<Pair> for ByLabel {
    ghost key_of = { λ pair. pair.label.0 };

    fn key(pair: &Pair) -> u32 {
        pair.label.0
    }
}

pub(crate) type PairList = Listing<Pair>;

// The pairs of those edges whose children have atomic values, ascending, each once.
pub(crate) fn pairs_before<V: ValueOf>(
    alloc: Global,
    entering: &[Edge],
    before: &V,
) -> Result<PairList, NoMemory>
    ensures { IfOk result (λ pairs. AreSetOf pair_cmp
        (IsAtomicPairOf (V.objects before.now) (Contains entering.now)) pairs) }
{
    let mut pairs = PairList::with_capacity(alloc, entering.len())?;
    add_pairs(&mut pairs, entering, before)?;
    let sorted = set_by_keys::<Pair, ByObject, ByLabel>(alloc, pairs)?;
    Ok(sorted)
}

// The pairs of those of these edges that aren't lost, and of the fresh ones, whose children have
// atomic values, ascending, each once.
pub(crate) fn pairs_then<W: ValueOf>(
    alloc: Global,
    entering: &[Edge],
    lost: &[Edge],
    fresh: &[Edge],
    after: &W,
) -> Result<PairList, NoMemory>
    ensures { IfOk result (λ pairs. AreSetOf pair_cmp
        (IsAtomicPairOf (W.objects after.now) (IsThere entering.now lost.now fresh.now)) pairs) }
{
    let gone = sorted_set(alloc, lost)?;
    let kept = kept_edges(alloc, entering, gone.as_slice())?;
    let room = kept.len().saturating_add(fresh.len());
    let mut pairs = PairList::with_capacity(alloc, room)?;
    add_pairs(&mut pairs, kept.as_slice(), after)?;
    add_pairs(&mut pairs, fresh, after)?;
    let sorted = set_by_keys::<Pair, ByObject, ByLabel>(alloc, pairs)?;
    Ok(sorted)
}

// Puts the pairs of those edges whose children have atomic values behind the pairs that are there.
fn add_pairs<V: ValueOf>(pairs: &mut PairList, edges: &[Edge], values: &V) -> Result<(), NoMemory>
    ensures { OnOk result
        (AreAdded pair_of (IsAtomic (V.objects values.now)) edges.now pairs.old pairs.new) }
{
    'edges: for edge in edges {
        if has_atom(values, edge.child) {
            pairs.push(Pair {
                label: edge.label,
                object: edge.child,
            })?;
        }
    }
    Ok(())
}

// The edges that aren't lost.
pub(crate) fn kept_edges(alloc: Global, edges: &[Edge], lost: &[Edge]) -> Result<EdgeBuf, NoMemory>
    requires { Ascends edge_cmp lost.now }
    ensures { IfOk result (λ kept. AreKept edges.now lost.now kept) }
{
    let mut kept = EdgeBuf::with_capacity(alloc, edges.len())?;
    'edges: for edge in edges {
        if !is_among(lost, edge) {
            kept.push(*edge)?;
        }
    }
    Ok(kept)
}

// The pairs that don't stand among the others, and those whose objects were given values, in the
// same order: all of them where there are no others.
pub(crate) fn moving_pairs(
    alloc: Global,
    pairs: &[Pair],
    others: &[Pair],
    given: &[Oid],
) -> Result<PairList, NoMemory>
    requires pairs { Ascends pair_cmp pairs.now }
    requires others { Ascends pair_cmp others.now }
    requires given { Ascends oid_cmp given.now }
    ensures { IfOk result
        (λ moving. AreSetOf pair_cmp (IsMoving pairs.now others.now given.now) moving) }
{
    if others.is_empty() {
        let all = copied_pairs(alloc, pairs)?;
        return Ok(all);
    }
    let mut moving = PairList::with_capacity(alloc, pairs.len())?;
    'pairs: for pair in pairs {
        if is_moving(pair, others, given) {
            moving.push(*pair)?;
        }
    }
    Ok(moving)
}

// A copy of the pairs, in the same order.
fn copied_pairs(alloc: Global, pairs: &[Pair]) -> Result<PairList, NoMemory>
    ensures { IfOk result (λ copy. copy ≡ pairs.now) }
{
    let mut copy = PairList::with_capacity(alloc, pairs.len())?;
    copy.append(pairs)?;
    Ok(copy)
}

// Whether the pair isn't one of the others, or its object was given a value.
fn is_moving(pair: &Pair, others: &[Pair], given: &[Oid]) -> bool
    requires others { Ascends pair_cmp others.now }
    requires given { Ascends oid_cmp given.now }
    ensures yes { result ≡ true
        → Contains given.now pair.now.object ⊎ (¬ Contains others.now pair.now) }
    ensures no { result ≡ false
        → (¬ Contains given.now pair.now.object) × Contains others.now pair.now }
{
    if !is_among(others, pair) {
        return true;
    }
    is_among(given, &pair.object)
}
