ghost use Rattle.std.specs.Prelude.{◌≡◌, List, [], ◌∷◌, ◌++◌, IfOk, OnOk};
ghost use Rattle.indexmap.specs.IndexMap.{get};
ghost use Rattle.product_walk.specs.ProductWalks.{IsAcceptedWalk, IsWalked, TakesReads, reads_out};
ghost use Rattle.least_words.specs.Types.{Oid as TheOid, Place as ThePlace};
ghost use Rattle.lore_base.specs.LeastWords.{IsLeastIfAny};
ghost use Rattle.least_words.specs.MachineWords.{same_oid, word_to, IsLeastOfPath};
ghost use Rattle.least_words.specs.inside.Groups.{AreEnds};

use crate::groups::{Origin, Place};
use crate::search::find_all;
use crate::spelling::spell;
use index_traits::Adjacent;
use indexmap::IndexMap;
use lore_base::{LabelTest, NoMemory, Oid, Steps, Word};
use path_expr::{Automaton, END};
use std::alloc::Global;
use std::marker::Model;
use std::sync::ledger::Ledger;

/// The least words of an automaton from one object to all others. Contracts see them as a list:
/// each object that a word leads to, with the least one.
///
/// It keeps a number for each of these objects, and two for each word that first led somewhere.
#[derive(Drop)]
pub struct LeastWords {
    ends: IndexMap<Oid, usize>,
    origins: Vec<Origin>,
}

impl Model for LeastWords {
    ghost use Rattle.std.specs.Prelude.{◌≤◌, List, length, map, IfSome};
    ghost use Rattle.indexmap.specs.IndexMap.{get};
    ghost use Rattle.least_words.specs.Types.{Oid, Label};
    ghost use Rattle.least_words.specs.inside.Groups.{AreBack, word_at};
    ghost use Rattle.least_words.specs.MachineWords.{same_oid};

    ghost Value = { List (Oid × List Label) };

    ghost view = { λ words.
        map (λ end. (end.0, word_at words.origins.items end.1)) words.ends.entries };

    ghost invariant = { λ words. AreBack words.origins.items
        × ((oid : Oid) → IfSome (get same_oid words.ends oid)
        (λ group. group ≤ length words.origins.items)) };
}

// Tells the group of the object, if the place is at the end.
fn put_end(ends: &mut IndexMap<Oid, usize>, place: Place) -> Result<(), NoMemory>
    ensures { OnOk result ((places : List ThePlace)
        → ((oid : TheOid) → AreEnds places oid (get same_oid ends.old oid))
        → (oid : TheOid) → AreEnds (places ++ place ∷ []) oid (get same_oid ends.new oid)) }
{
    if !place.states.has(END) {
        return Ok(());
    }
    ends.insert(place.oid, place.group)?;
    Ok(())
}

// The objects that are met at the end, each with its group.
fn ends_of(alloc: Global, places: &[Place]) -> Result<IndexMap<Oid, usize>, NoMemory>
    ensures { IfOk result (λ ends. (oid : TheOid)
        → AreEnds places.now oid (get same_oid ends oid)) }
{
    let mut ends = IndexMap::new(alloc);
    'places: for place in places {
        put_end(&mut ends, *place)?;
    }
    Ok(ends)
}

impl LeastWords {
    /// Finds the least words that the automaton accepts and that are walked from `from`, whether or
    /// not it is live.
    ///
    /// The steps grow by at most 65 times the reads of each object that is walked to from `from`:
    /// one, and one more for each edge that leaves it. Where memory is refused, nothing is promised
    /// of `steps`.
    pub fn new<A: Adjacent, T: LabelTest, L: Ledger>(
        alloc: Global,
        graph: &A,
        from: Oid,
        automaton: &Automaton,
        labels: &T,
        steps: &mut Steps<L>,
    ) -> Result<LeastWords, NoMemory>
        ensures accepted { IfOk result (λ words. (to : TheOid) → IsLeastIfAny
            (IsAcceptedWalk (T.texts labels.now) (A.edges graph.now) automaton.now from to)
            (word_to words to)) }
        ensures spelled { IfOk result (λ words. (to : TheOid) → IsLeastOfPath
            (T.texts labels.now) (A.edges graph.now) automaton.now from to (word_to words to)) }
        ensures steps { OnOk result (TakesReads (reads_out (A.edges graph.now))
            (IsWalked (A.edges graph.now) from) steps.old steps.new) }
    {
        let groups = find_all(alloc, graph, from, automaton, labels, steps)?;
        let ends = ends_of(alloc, groups.places.as_slice())?;
        Ok(LeastWords {
            ends,
            origins: groups.origins,
        })
    }

    /// The least word that leads to the object; None exactly where none does.
    pub fn word(&self, alloc: Global, to: Oid) -> Result<Option<Word>, NoMemory>
        ensures { IfOk result (λ word. word ≡ word_to self.now to) }
    {
        let Some(group) = self.ends.get(&to) else {
            return Ok(None);
        };
        let word = spell(alloc, self.origins.as_slice(), *group)?;
        Ok(Some(word))
    }
}

/// The least word that the automaton accepts and that is walked from one object to the other,
/// whether or not they are live; None exactly where there is none. The steps grow as those of
/// [`LeastWords::new`].
pub fn least_word<A: Adjacent, T: LabelTest, L: Ledger>(
    alloc: Global,
    graph: &A,
    from: Oid,
    to: Oid,
    automaton: &Automaton,
    labels: &T,
    steps: &mut Steps<L>,
) -> Result<Option<Word>, NoMemory>
    ensures accepted { IfOk result (λ word. IsLeastIfAny
        (IsAcceptedWalk (T.texts labels.now) (A.edges graph.now) automaton.now from to) word) }
    ensures spelled { IfOk result (λ word. IsLeastOfPath
        (T.texts labels.now) (A.edges graph.now) automaton.now from to word) }
    ensures steps { OnOk result (TakesReads (reads_out (A.edges graph.now))
        (IsWalked (A.edges graph.now) from) steps.old steps.new) }
{
    let words = LeastWords::new(alloc, graph, from, automaton, labels, steps)?;
    words.word(alloc, to)
}
