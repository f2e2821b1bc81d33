ghost use Rattle.std.specs.Prelude.{◌≡◌, ◌≤◌, Some, All, option_map, IfOk, IfSome};
ghost use Rattle.std.specs.Option.{option_copied};
ghost use Rattle.index_traits.specs.PartRows.{AreAllThatFit};
ghost use Rattle.lorel_bound.specs.Bound.{bound_cond};
ghost use Rattle.lorel_bound.specs.Conditions.{paths_in};
ghost use Rattle.lorel_bound.specs.SlotRows.{HoldsOver};
ghost use Rattle.lorel_eval.specs.Tests.{rest_leaves};
ghost use Rattle.index_eval.specs.Types.{LEAVES};
ghost use Rattle.index_eval.specs.Indexes.{AreIndexes};
ghost use Rattle.index_eval.specs.inside.Ends.{IsClueIn};

use crate::ends::{Readers, objects_by, objects_in_turn};
use crate::pace::{Pace, most_ends};
use crate::split::{Split, note_distinct, split_holds, split_in};
use index_traits::{Adjacent, Links, Row, RowTest, ValueOf, Values};
use lore_base::limits::RANGES;
use lore_base::{NoMemory, OidBuf, Steps};
use lorel_bound::BoundCond;
use lorel_eval::Test;
use member_clues::{Clue, clue_by_value, clues_of};
use oem_labels::LabelTable;
use std::alloc::Global;
use std::marker::Model;
use std::sync::ledger::Ledger;

/// A bound condition over a graph with indexes of its edges and values, which tell early which
/// objects fit a slot; or over a graph alone. Contracts see the label texts, the edges, the objects
/// with their values, and the condition. Tests of one select share a pace.
#[derive(Drop)]
pub struct IndexedTest<'a, 'p, G: Adjacent + ValueOf, K: Links, V: Values> {
    test: Test<'a, G, G>,
    graph: &'a G,
    labels: &'a LabelTable,
    links: &'a K,
    values: &'a V,
    clues: Vec<Clue<'a>>,
    pace: &'p Pace,
    split: Option<Split<'a, G>>,
}

impl<'a, 'p, G: Adjacent + ValueOf, K: Links, V: Values> Model for IndexedTest<'a, 'p, G, K, V> {
    ghost use Rattle.std.specs.Coded.{codes};
    ghost use Rattle.std.specs.Prelude.{option_map, IfSome};
    ghost use Rattle.lorel_bound.specs.contracts.conditions.BoundCond as bound_cond_contract;
    ghost use Rattle.lorel_bound.specs.Bound.{bound_cond};
    ghost use Rattle.lorel_eval.specs.Tests.{CondOver};
    ghost use Rattle.index_eval.specs.inside.Ends.{IsServed};
    ghost use Rattle.index_eval.specs.inside.Listing.{SplitsIn};

    ghost Value = { CondOver };

    ghost coded = { Prim.hlevel (codes, bound_cond_contract.the_row.coded) };

    ghost view = { λ t. t.test };

    ghost invariant = { λ t. IsServed t.test t.labels.now (G.edges t.graph.now)
        (G.objects t.graph.now) (K.edges t.links.now) (V.entries t.values.now) t.clues.items
        × IfSome t.split (λ split. SplitsIn t.test.labels t.test.edges t.test.objects
        (option_map bound_cond t.test.cond) split.listed split.others.items) };
}

impl<'a, 'p, G: Adjacent + ValueOf, K: Links, V: Values> IndexedTest<'a, 'p, G, K, V> {
    /// The test of this condition over a graph, its table of labels, and the indexes of its links
    /// and of its values. The rests of the condition's paths have at most 64 leaves together. Tests
    /// of one select are handed one pace.
    pub fn new(
        alloc: Global,
        cond: Option<&'a BoundCond>,
        graph: &'a G,
        labels: &'a LabelTable,
        links: &'a K,
        values: &'a V,
        pace: &'p Pace,
    ) -> Result<IndexedTest<'a, 'p, G, K, V>, NoMemory>
        requires leaves { rest_leaves (paths_in (option_map bound_cond (option_copied cond)))
            ≤ LEAVES }
        requires indexes { AreIndexes (G.objects graph.now) (G.edges graph.now)
            (K.edges links.now) (V.entries values.now) }
        ensures labels { IfOk result (λ test. test.labels ≡ labels.now) }
        ensures edges { IfOk result (λ test. test.edges ≡ G.edges graph.now) }
        ensures objects { IfOk result (λ test. test.objects ≡ G.objects graph.now) }
        ensures cond { IfOk result (λ test. test.cond ≡ option_copied cond.entry) }
    {
        let test = Test::ready(alloc, cond, graph, graph, labels)?;
        let clues = clues_in(alloc, cond, labels)?;
        Ok(IndexedTest {
            test,
            graph,
            labels,
            links,
            values,
            clues,
            pace,
            split: None,
        })
    }

    /// The same for hints: of a member that compares what two paths reach it is told only which
    /// objects fit, and no row is ruled out by it.
    pub fn for_hints(
        alloc: Global,
        cond: Option<&'a BoundCond>,
        graph: &'a G,
        labels: &'a LabelTable,
        links: &'a K,
        values: &'a V,
        pace: &'p Pace,
    ) -> Result<IndexedTest<'a, 'p, G, K, V>, NoMemory>
        requires leaves { rest_leaves (paths_in (option_map bound_cond (option_copied cond)))
            ≤ LEAVES }
        requires indexes { AreIndexes (G.objects graph.now) (G.edges graph.now)
            (K.edges links.now) (V.entries values.now) }
        ensures labels { IfOk result (λ test. test.labels ≡ labels.now) }
        ensures edges { IfOk result (λ test. test.edges ≡ G.edges graph.now) }
        ensures objects { IfOk result (λ test. test.objects ≡ G.objects graph.now) }
        ensures cond { IfOk result (λ test. test.cond ≡ option_copied cond.entry) }
    {
        let test = Test::by_values(alloc, cond, graph, graph, labels)?;
        let clues = clues_in(alloc, cond, labels)?;
        Ok(IndexedTest {
            test,
            graph,
            labels,
            links,
            values,
            clues,
            pace,
            split: None,
        })
    }

    /// The same as the first, for many rows: of a member of the condition that takes long walks the objects of
    /// which it holds are listed here, by one walk back from all that it asks for, and each row is
    /// then looked up in place of being tested by that member.
    pub fn listed<L: Ledger>(
        alloc: Global,
        cond: Option<&'a BoundCond>,
        graph: &'a G,
        labels: &'a LabelTable,
        links: &'a K,
        values: &'a V,
        pace: &'p Pace,
        steps: &mut Steps<L>,
    ) -> Result<IndexedTest<'a, 'p, G, K, V>, NoMemory>
        requires leaves { rest_leaves (paths_in (option_map bound_cond (option_copied cond)))
            ≤ LEAVES }
        requires indexes { AreIndexes (G.objects graph.now) (G.edges graph.now)
            (K.edges links.now) (V.entries values.now) }
        ensures labels { IfOk result (λ test. test.labels ≡ labels.now) }
        ensures edges { IfOk result (λ test. test.edges ≡ G.edges graph.now) }
        ensures objects { IfOk result (λ test. test.objects ≡ G.objects graph.now) }
        ensures cond { IfOk result (λ test. test.cond ≡ option_copied cond.entry) }
    {
        let test = Test::ready(alloc, cond, graph, graph, labels)?;
        let clues = clues_in(alloc, cond, labels)?;
        let readers = Readers {
            graph,
            labels,
            links,
            values,
            most: 0,
            pace,
        };
        let split = split_in(alloc, &readers, cond, steps)?;
        Ok(IndexedTest {
            test,
            graph,
            labels,
            links,
            values,
            clues,
            pace,
            split,
        })
    }

    /// The same without help of the links and values, which may be any.
    pub fn plain(
        alloc: Global,
        cond: Option<&'a BoundCond>,
        graph: &'a G,
        labels: &'a LabelTable,
        links: &'a K,
        values: &'a V,
        pace: &'p Pace,
    ) -> Result<IndexedTest<'a, 'p, G, K, V>, NoMemory>
        requires { rest_leaves (paths_in (option_map bound_cond (option_copied cond))) ≤ LEAVES }
        ensures labels { IfOk result (λ test. test.labels ≡ labels.now) }
        ensures edges { IfOk result (λ test. test.edges ≡ G.edges graph.now) }
        ensures objects { IfOk result (λ test. test.objects ≡ G.objects graph.now) }
        ensures cond { IfOk result (λ test. test.cond ≡ option_copied cond.entry) }
    {
        let test = Test::ready(alloc, cond, graph, graph, labels)?;
        Ok(IndexedTest {
            test,
            graph,
            labels,
            links,
            values,
            clues: Vec::new(alloc),
            pace,
            split: None,
        })
    }
}

impl<'a, 'p, G: Adjacent + ValueOf, K: Links, V: Values> IndexedTest<'a, 'p, G, K, V> {
    // The objects that fit the slot by the clues of the condition; None where these don't tell.
    fn fitting_by_clues<L: Ledger>(
        &self,
        alloc: Global,
        known: &[bool; RANGES],
        slot: u32,
        row: &Row,
        steps: &mut Steps<L>,
    ) -> Result<Option<OidBuf>, NoMemory>
        ensures { IfOk result (λ found. IfSome found (λ oids. AreAllThatFit (λ row.
            HoldsOver self.now.labels self.now.edges self.now.objects row
            (option_map bound_cond self.now.cond)) known.now slot row.now oids)) }
    {
        note_distinct(self.labels);
        let clues = self.clues.as_slice();
        let readers = Readers {
            graph: self.graph,
            labels: self.labels,
            links: self.links,
            values: self.values,
            most: most_ends(known),
            pace: self.pace,
        };
        match clue_by_value(self.values, clues, known, slot) {
            Some(clue) => objects_by(alloc, &readers, clue, row, steps),
            None => objects_in_turn(alloc, &readers, clues, known, slot, row, steps),
        }
    }
}

impl<'a, 'p, G: Adjacent + ValueOf, K: Links, V: Values> RowTest for IndexedTest<'a, 'p, G, K, V> {
    ghost passes = { λ test row.
        HoldsOver test.labels test.edges test.objects row (option_map bound_cond test.cond) };

    fn holds<L: Ledger>(
        &self,
        alloc: Global,
        row: &Row,
        steps: &mut Steps<L>,
    ) -> Result<bool, NoMemory> {
        self.pace.note_tested();
        match &self.split {
            Some(split) => split_holds(alloc, split, row, steps),
            None => self.test.holds(alloc, row, steps),
        }
    }

    fn rules_out<L: Ledger>(
        &self,
        alloc: Global,
        known: &[bool; RANGES],
        row: &Row,
        steps: &mut Steps<L>,
    ) -> Result<bool, NoMemory> {
        self.pace.note_tested();
        self.test.rules_out(alloc, known, row, steps)
    }

    fn fitting<L: Ledger>(
        &self,
        alloc: Global,
        known: &[bool; RANGES],
        slot: u32,
        row: &Row,
        steps: &mut Steps<L>,
    ) -> Result<Option<OidBuf>, NoMemory> {
        match &self.split {
            Some(split) => {
                if split.listed.is_asked(known, slot) {
                    return copied(alloc, &split.listed.oids);
                }
                self.fitting_by_clues(alloc, known, slot, row, steps)
            }
            None => self.fitting_by_clues(alloc, known, slot, row, steps),
        }
    }
}

// The clues of a condition, if there is one.
fn clues_in<'a>(
    alloc: Global,
    cond: Option<&'a BoundCond>,
    labels: &LabelTable,
) -> Result<Vec<Clue<'a>>, NoMemory>
    requires { rest_leaves (paths_in (option_map bound_cond (option_copied cond))) ≤ LEAVES }
    ensures { IfOk result (λ clues.
        All (IsClueIn labels.now (option_copied cond.entry)) clues.items) }
{
    match cond {
        Some(cond) => clues_of(alloc, cond, labels),
        None => Ok(Vec::new(alloc)),
    }
}

// The objects once more.
fn copied(alloc: Global, oids: &OidBuf) -> Result<Option<OidBuf>, NoMemory>
    ensures { IfOk result (λ found. found ≡ Some oids.now) }
{
    let mut copy = OidBuf::with_capacity(alloc, oids.len())?;
    copy.append(oids.as_slice())?;
    Ok(Some(copy))
}
