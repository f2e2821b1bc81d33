ghost use Rattle.std.specs.Prelude.{◌≡◌, ◌≤◌, IfOk};
ghost use Rattle.lore_base.specs.Paths.{path_tree, leaves, Reaches};
ghost use Rattle.lore_base.specs.TargetSets.{ListsInOrder};
ghost use Rattle.word_walks.specs.WordWalks.{IsReachedBy};
ghost use Rattle.lorel_eval.specs.Types.{LEAVES};
ghost use Rattle.lorel_eval.specs.inside.FoundObjects.{oids_of};

use crate::found::{Found, found_by};
use index_traits::Adjacent;
use lore_base::{NoMemory, Oid, OidBuf, Path, Steps};
use oem_labels::LabelTable;
use product_walk::Route;
use std::alloc::Global;
use std::cell::Cell;
use std::marker::Model;
use std::sync::ledger::Ledger;
use word_walks::{OnlyWord, Reached, only_word};

// A path over a table of labels, made ready for walks from many objects: where it is plain labels one
// after another, their numbers are compared. Contracts see the label texts and the path.
#[derive(Drop)]
pub(crate) struct ReadyRoute<'a> {
    route: Route<'a>,
    labels: &'a LabelTable,
    word: Option<OnlyWord>,
}

// What the walks of a test keep. The first one keeps no lists, since few rows may be tested.
#[derive(Drop)]
pub(crate) enum Kept {
    Nothing,
    NoLists,
    Lists(Box<Reached>),
}

impl<'a> Model for ReadyRoute<'a> {
    ghost use Rattle.std.specs.Prelude.{IfSome};
    ghost use Rattle.std.specs.Coded.{codes};
    ghost use Rattle.lore_base.specs.Paths.{path_tree};
    ghost use Rattle.lore_base.specs.contracts.paths.Path as path_contract;
    ghost use Rattle.word_walks.specs.WordWalks.{IsItsWord};
    ghost use Rattle.lorel_eval.specs.inside.Labelled.{RouteOver};

    ghost Value = { RouteOver };

    ghost coded = { Prim.hlevel (codes, path_contract.the_row.coded) };

    ghost view = { λ ready. record { labels = ready.labels.now; path = ready.route } };

    ghost invariant = { λ ready.
        IfSome ready.word (IsItsWord ready.labels.now (path_tree ready.route)) };
}

impl<'a> ReadyRoute<'a> {
    // Makes the path ready. It has at most 64 leaves.
    pub(crate) fn new(
        alloc: Global,
        labels: &'a LabelTable,
        path: &'a Path,
    ) -> Result<ReadyRoute<'a>, NoMemory>
        requires { leaves (path_tree path.now) ≤ LEAVES }
        ensures labels { IfOk result (λ route. route.labels ≡ labels.now) }
        ensures path { IfOk result (λ route. route.path ≡ path.now) }
    {
        let route = Route::new(alloc, path)?;
        let word = only_word(alloc, path, labels)?;
        Ok(ReadyRoute {
            route,
            labels,
            word,
        })
    }

    // The objects that the path reaches from the object.
    pub(crate) fn reach<A: Adjacent, L: Ledger>(
        &self,
        alloc: Global,
        graph: &A,
        from: Oid,
        kept: &Cell<Kept>,
        steps: &mut Steps<L>,
    ) -> Result<Found, NoMemory>
        ensures { IfOk result (λ found. ListsInOrder (Reaches self.now.labels
            (A.edges graph.now) (path_tree self.now.path) from) (oids_of found)) }
    {
        let Some(word) = &self.word else {
            return searched(alloc, graph, self.labels, &self.route, from, steps);
        };
        match taken(alloc, kept)? {
            Some(reached) => walked(alloc, graph, word, from, reached, kept, steps),
            None => searched(alloc, graph, self.labels, &self.route, from, steps),
        }
    }
}

// The lists of the walk before; None at the first walk.
fn taken(alloc: Global, kept: &Cell<Kept>) -> Result<Option<Box<Reached>>, NoMemory> {
    match kept.replace(Kept::NoLists) {
        Kept::Nothing => Ok(None),
        Kept::NoLists => Ok(Some(Box::new(alloc, Reached::new(alloc))?)),
        Kept::Lists(reached) => Ok(Some(reached)),
    }
}

// The objects that the word reaches from the object. The lists are kept for the next walk.
fn walked<A: Adjacent, L: Ledger>(
    alloc: Global,
    graph: &A,
    word: &OnlyWord,
    from: Oid,
    mut reached: Box<Reached>,
    kept: &Cell<Kept>,
    steps: &mut Steps<L>,
) -> Result<Found, NoMemory>
    ensures { IfOk result (λ found.
        ListsInOrder (IsReachedBy word.now (A.edges graph.now) from) (oids_of found)) }
{
    let found = walked_by(alloc, graph, word, from, &mut reached, steps)?;
    kept.set(Kept::Lists(reached));
    Ok(found)
}

// The same by these lists.
fn walked_by<A: Adjacent, L: Ledger>(
    alloc: Global,
    graph: &A,
    word: &OnlyWord,
    from: Oid,
    reached: &mut Reached,
    steps: &mut Steps<L>,
) -> Result<Found, NoMemory>
    ensures { IfOk result (λ found.
        ListsInOrder (IsReachedBy word.now (A.edges graph.now) from) (oids_of found)) }
{
    reached.walk(graph, word, from, steps)?;
    Ok(found_by(alloc, reached))
}

// The objects that the path reaches from the object, its label texts compared.
fn searched<A: Adjacent, L: Ledger>(
    alloc: Global,
    graph: &A,
    labels: &LabelTable,
    route: &Route<'_>,
    from: Oid,
    steps: &mut Steps<L>,
) -> Result<Found, NoMemory>
    ensures { IfOk result (λ found. ListsInOrder (Reaches labels.now
        (A.edges graph.now) (path_tree route.now) from) (oids_of found)) }
{
    let mut oids = OidBuf::new(alloc);
    route.reach(alloc, graph, labels, from, &mut oids, steps)?;
    Ok(Found::Listed(oids))
}
