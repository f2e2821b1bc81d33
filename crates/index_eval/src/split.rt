ghost use Rattle.std.specs.Prelude.{◌≡◌, ◌≢◌, ◌≤◌, ◌<◌, ◌↔◌, ◌∷◌, ◌++◌, option_map, map, length};
ghost use Rattle.std.specs.Prelude.{All, AllPairs, Contains, IsTrue, IfOk, IfSome, OnOk};
ghost use Rattle.std.specs.Option.{option_copied};
ghost use Rattle.lorel_bound.specs.Bound.{bound_cond, conds_from};
ghost use Rattle.lorel_bound.specs.Conditions.{and, paths_in, paths_of, paths_of_all};
ghost use Rattle.lorel_eval.specs.Tests.{rest_leaves};
ghost use Rattle.index_eval.specs.Types.{LEAVES};
ghost use Rattle.index_eval.specs.Indexes.{AreIndexes};
ghost use Rattle.index_eval.specs.inside.Listing.{HasListed, PassesOn, Splits, SplitsIn, cond_over};

use crate::ends::Readers;
use crate::listing::{Listed, is_sought, listed_of};
use index_traits::{Adjacent, Links, Row, RowTest, ValueOf, Values};
use lore_base::{NoMemory, Oid, OidBuf, Steps};
use lorel_bound::BoundCond;
use lorel_eval::{Test, in_slot};
use oem_labels::LabelTable;
use std::alloc::Global;
use std::sync::ledger::Ledger;

/// A condition by the objects of one of its members and tests of the others.
#[derive(Drop)]
pub(crate) struct Split<'a, G: Adjacent + ValueOf> {
    pub(crate) listed: Listed,
    pub(crate) others: Vec<Test<'a, G, G>>,
}

/// Whether the condition holds of the row, which is looked up for the member that is listed.
pub(crate) fn split_holds<G: Adjacent + ValueOf, L: Ledger>(
    alloc: Global,
    split: &Split<'_, G>,
    row: &Row,
    steps: &mut Steps<L>,
) -> Result<bool, NoMemory>
    requires { AllPairs (λ a b. a.0 < b.0) split.now.listed.oids }
    ensures { IfOk result (λ answer. IsTrue answer ↔ (HasListed split.now.listed row.now
        × All (PassesOn row.now) split.now.others.items)) }
{
    if !has_listed(&split.listed, row) {
        return Ok(false);
    }
    all_hold(alloc, split.others.as_slice(), row, steps)
}

// Whether the row has one of the objects in the slot.
fn has_listed(listed: &Listed, row: &Row) -> bool
    requires { AllPairs (λ a b. a.0 < b.0) listed.now.oids }
    ensures { IsTrue result ↔ HasListed listed.now row.now }
{
    let Some(oid) = in_slot(row, listed.slot) else {
        return false;
    };
    is_among(&listed.oids, oid)
}

// Whether the object is one of these, which ascend: a binary search.
fn is_among(oids: &OidBuf, oid: Oid) -> bool
    requires { AllPairs (λ a b. a.0 < b.0) oids.now }
    ensures { IsTrue result ↔ Contains oids.now oid }
{
    match oids.as_slice().binary_search(&oid) {
        Ok(_) => true,
        Err(_) => false,
    }
}

// Whether all of the tests hold of the row. Those behind one that doesn't aren't made.
fn all_hold<G: Adjacent + ValueOf, L: Ledger>(
    alloc: Global,
    tests: &[Test<'_, G, G>],
    row: &Row,
    steps: &mut Steps<L>,
) -> Result<bool, NoMemory>
    ensures { IfOk result (λ answer. IsTrue answer ↔ All (PassesOn row.now) tests.now) }
{
    'tests: for test in tests {
        if !test.holds(alloc, row, steps)? {
            return Ok(false);
        }
    }
    Ok(true)
}

/// The condition by the objects of one of its members, if there is one whose objects can be listed.
pub(crate) fn split_in<'a, G: Adjacent + ValueOf, K: Links, V: Values, L: Ledger>(
    alloc: Global,
    readers: &Readers<'a, '_, G, K, V>,
    cond: Option<&'a BoundCond>,
    steps: &mut Steps<L>,
) -> Result<Option<Split<'a, G>>, NoMemory>
    requires few { rest_leaves (paths_in (option_map bound_cond (option_copied cond))) ≤ LEAVES }
    requires indexes { AreIndexes (G.objects readers.now.graph.now) (G.edges readers.now.graph.now)
        (K.edges readers.now.links.now) (V.entries readers.now.values.now) }
    ensures { IfOk result (λ found. IfSome found (λ split. SplitsIn readers.now.labels.now
        (G.edges readers.now.graph.now) (G.objects readers.now.graph.now)
        (option_map bound_cond (option_copied cond.entry)) split.listed split.others.items)) }
{
    match cond {
        Some(cond) => split_of(alloc, readers, cond, steps),
        None => Ok(None),
    }
}

// The same of a condition that is there.
fn split_of<'a, G: Adjacent + ValueOf, K: Links, V: Values, L: Ledger>(
    alloc: Global,
    readers: &Readers<'a, '_, G, K, V>,
    cond: &'a BoundCond,
    steps: &mut Steps<L>,
) -> Result<Option<Split<'a, G>>, NoMemory>
    requires few { rest_leaves (paths_of (bound_cond cond.now)) ≤ LEAVES }
    requires indexes { AreIndexes (G.objects readers.now.graph.now) (G.edges readers.now.graph.now)
        (K.edges readers.now.links.now) (V.entries readers.now.values.now) }
    ensures { IfOk result (λ found. IfSome found (λ split. Splits readers.now.labels.now
        (G.edges readers.now.graph.now) (G.objects readers.now.graph.now)
        (bound_cond cond.now) split.listed split.others.items)) }
{
    note_distinct(readers.labels);
    match cond {
        BoundCond::And(members) => split_members(alloc, readers, members.as_slice(), steps),
        _ => split_alone(alloc, readers, cond, steps),
    }
}

// The same of a condition that is no `and`.
fn split_alone<'a, G: Adjacent + ValueOf, K: Links, V: Values, L: Ledger>(
    alloc: Global,
    readers: &Readers<'a, '_, G, K, V>,
    cond: &'a BoundCond,
    steps: &mut Steps<L>,
) -> Result<Option<Split<'a, G>>, NoMemory>
    requires few { rest_leaves (paths_of (bound_cond cond.now)) ≤ LEAVES }
    requires distinct { AllPairs (λ a b. a ≢ b) readers.now.labels.now }
    requires indexes { AreIndexes (G.objects readers.now.graph.now) (G.edges readers.now.graph.now)
        (K.edges readers.now.links.now) (V.entries readers.now.values.now) }
    ensures { IfOk result (λ found. IfSome found (λ split. Splits readers.now.labels.now
        (G.edges readers.now.graph.now) (G.objects readers.now.graph.now)
        (bound_cond cond.now) split.listed split.others.items)) }
{
    let Some(listed) = listed_of(alloc, readers, cond, steps)? else {
        return Ok(None);
    };
    Ok(Some(Split {
        listed,
        others: Vec::new(alloc),
    }))
}

// The same of an `and` of these members.
fn split_members<'a, G: Adjacent + ValueOf, K: Links, V: Values, L: Ledger>(
    alloc: Global,
    readers: &Readers<'a, '_, G, K, V>,
    members: &'a [BoundCond],
    steps: &mut Steps<L>,
) -> Result<Option<Split<'a, G>>, NoMemory>
    requires few { rest_leaves (paths_of_all (conds_from (map bound_cond members.now))) ≤ LEAVES }
    requires distinct { AllPairs (λ a b. a ≢ b) readers.now.labels.now }
    requires indexes { AreIndexes (G.objects readers.now.graph.now) (G.edges readers.now.graph.now)
        (K.edges readers.now.links.now) (V.entries readers.now.values.now) }
    ensures { IfOk result (λ found. IfSome found (λ split. Splits readers.now.labels.now
        (G.edges readers.now.graph.now) (G.objects readers.now.graph.now)
        (and (conds_from (map bound_cond members.now))) split.listed split.others.items)) }
{
    let (before, rest) = members.split_at(place_of_first(members));
    match rest.split_first() {
        Some((own, behind)) => split_at_member(alloc, readers, before, own, behind, steps),
        None => Ok(None),
    }
}

// The same of the members before one, this one, and those behind it.
fn split_at_member<'a, G: Adjacent + ValueOf, K: Links, V: Values, L: Ledger>(
    alloc: Global,
    readers: &Readers<'a, '_, G, K, V>,
    before: &'a [BoundCond],
    own: &'a BoundCond,
    behind: &'a [BoundCond],
    steps: &mut Steps<L>,
) -> Result<Option<Split<'a, G>>, NoMemory>
    requires before { rest_leaves (paths_of_all (conds_from (map bound_cond before.now))) ≤ LEAVES }
    requires own { rest_leaves (paths_of (bound_cond own.now)) ≤ LEAVES }
    requires behind { rest_leaves (paths_of_all (conds_from (map bound_cond behind.now))) ≤ LEAVES }
    requires distinct { AllPairs (λ a b. a ≢ b) readers.now.labels.now }
    requires indexes { AreIndexes (G.objects readers.now.graph.now) (G.edges readers.now.graph.now)
        (K.edges readers.now.links.now) (V.entries readers.now.values.now) }
    ensures { IfOk result (λ found. IfSome found (λ split. Splits readers.now.labels.now
        (G.edges readers.now.graph.now) (G.objects readers.now.graph.now)
        (and (conds_from (map bound_cond (before.now ++ own.now ∷ behind.now))))
        split.listed split.others.items)) }
{
    let Some(listed) = listed_of(alloc, readers, own, steps)? else {
        return Ok(None);
    };
    let mut others = Vec::new(alloc);
    push_tests(alloc, readers, before, &mut others)?;
    push_tests(alloc, readers, behind, &mut others)?;
    Ok(Some(Split { listed, others }))
}

// Puts tests of these conditions behind the others.
fn push_tests<'a, G: Adjacent + ValueOf, K, V>(
    alloc: Global,
    readers: &Readers<'a, '_, G, K, V>,
    conds: &'a [BoundCond],
    tests: &mut Vec<Test<'a, G, G>>,
) -> Result<(), NoMemory>
    requires { rest_leaves (paths_of_all (conds_from (map bound_cond conds.now))) ≤ LEAVES }
    ensures { OnOk result (tests.new.items ≡ tests.old.items
        ++ map (cond_over readers.now.labels.now (G.edges readers.now.graph.now)
        (G.objects readers.now.graph.now)) conds.now) }
{
    'conds: for cond in conds {
        let graph = readers.graph;
        let test = Test::ready(alloc, Some(cond), graph, graph, readers.labels)?;
        tests.push(test)?;
    }
    Ok(())
}

// The place of the member whose objects are to be listed: the first comparison that a plan could
// begin with, and where there is none, the first `exists` or `==`. A place behind them where none
// is so.
fn place_of_first(members: &[BoundCond]) -> usize
    ensures { result ≤ length members.now }
{
    let place = place_of(members, true);
    if place < members.len() {
        return place;
    }
    place_of(members, false)
}

// The place of the first such comparison, or else of the first of the other two forms.
fn place_of(members: &[BoundCond], compares: bool) -> usize
    ensures { result ≤ length members.now }
{
    'members: for place in 0..members.len() {
        if is_first(&members[place], compares) {
            return place;
        }
    }
    members.len()
}

// Whether the member is one of those that are looked for.
fn is_first(member: &BoundCond, compares: bool) -> bool {
    match member {
        BoundCond::Compare { left, op, right } => compares && is_sought(left, *op, right),
        BoundCond::Exists { .. } => !compares,
        BoundCond::Same { .. } => !compares,
        _ => false,
    }
}

// The texts of a table of labels are distinct. Nothing is done.
pub(crate) fn note_distinct(labels: &LabelTable)
    ensures { AllPairs (λ a b. a ≢ b) labels.now }
{
    let _count = labels.len();
}
