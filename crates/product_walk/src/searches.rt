ghost use Rattle.std.specs.Prelude.{◌≡◌, ◌↔◌, ◌⊎◌, List, Contains, map, IfOk, OnOk, OnErr};
ghost use Rattle.lore_base.specs.Lists.{Extends, ExtendsBy};
ghost use Rattle.lore_base.specs.TargetSets.{ListsInOrder};
ghost use Rattle.graph_search.specs.Closures.{IsMet};
ghost use Rattle.path_expr.specs.Machines.{IsIn};
ghost use Rattle.product_walk.specs.Types.{Oid as TheOid, END};
ghost use Rattle.product_walk.specs.ProductWalks.{IsAcceptedFrom, IsAcceptedInto, IsWalked};
ghost use Rattle.product_walk.specs.ProductWalks.{WalksInto, TakesReads, reads_out, reads_in};
ghost use Rattle.product_walk.specs.inside.Products.{ReadsInto, ReadsTurned};
ghost use Rattle.product_walk.specs.inside.StateSets.{HasState, marks};

use crate::direction::{Against, Along, Direction};
use crate::product::Product;
use crate::state_marks::StateMarks;
use graph_search::search;
use index_traits::{Adjacent, Links};
use lore_base::{EdgeBuf, LabelTest, NoMemory, Oid, OidBuf, Steps};
use path_expr::{Automaton, END, Mover, States};
use std::alloc::Global;
use std::sync::ledger::Ledger;

// The objects, each under these states.
fn starting_at(
    alloc: Global,
    oids: &[Oid],
    states: States,
) -> Result<Vec<(Oid, StateMarks)>, NoMemory>
    ensures { IfOk result (λ starts. starts.items ≡ map (λ oid. (oid, marks states)) oids.now) }
{
    let mut starts = Vec::with_capacity(alloc, oids.len())?;
    'oids: for oid in oids {
        starts.push((*oid, StateMarks(states)))?;
    }
    Ok(starts)
}

// Appends the object of the place, if it is met at the end.
fn push_ended(ended: &mut OidBuf, place: (Oid, StateMarks)) -> Result<(), NoMemory>
    ensures { OnOk result ((oid : TheOid) → Contains ended.new oid
        ↔ (Contains ended.old oid ⊎ ((oid ≡ place.0) × IsIn (place.1).0 END))) }
{
    if place.1.0.has(END) {
        ended.push(place.0)?;
    }
    Ok(())
}

// Appends the objects that are met at the end, ascending, each once.
pub(crate) fn append_ended(
    alloc: Global,
    met: &[(Oid, StateMarks)],
    buf: &mut OidBuf,
) -> Result<(), NoMemory>
    ensures objects { OnOk result (ExtendsBy
        (ListsInOrder (λ oid. IsMet HasState met.now (oid, END))) buf.old buf.new) }
    ensures err { OnErr result (buf.new ≡ buf.old) }
{
    let mut ended = OidBuf::with_capacity(alloc, met.len())?;
    'places: for place in met {
        push_ended(&mut ended, *place)?;
    }
    ended.sort_set();
    buf.append(ended.as_slice())?;
    Ok(())
}

/// Appends to `buf`, ascending, each once, the objects to which the automaton's words are walked from
/// `from`, whether or not it is live.
///
/// The steps grow by at most 65 times the reads of each object that is walked to from `from`: one,
/// and one more for each edge that leaves it. Where memory is refused, nothing is promised of
/// `steps`.
pub fn forward<A: Adjacent, T: LabelTest, L: Ledger>(
    alloc: Global,
    graph: &A,
    from: Oid,
    automaton: &Automaton,
    labels: &T,
    buf: &mut OidBuf,
    steps: &mut Steps<L>,
) -> Result<(), NoMemory>
    ensures objects { OnOk result (ExtendsBy (ListsInOrder
        (IsAcceptedFrom (T.texts labels.now) (A.edges graph.now) automaton.now from))
        buf.old buf.new) }
    ensures steps { OnOk result (TakesReads (reads_out (A.edges graph.now))
        (IsWalked (A.edges graph.now) from) steps.old steps.new) }
    ensures err { OnErr result (Extends buf.old buf.new) }
{
    let mut product = Product {
        direction: Along { graph },
        mover: Mover::new(alloc, automaton, labels),
        edges: EdgeBuf::new(alloc),
    };
    let starts = [(from, StateMarks(automaton.starts()))];
    let met = search(alloc, &mut product, starts.as_slice(), steps)?;
    append_ended(alloc, met.as_slice(), buf)
}

// Appends the objects from which a word is walked to some object of `to` that the automaton accepts
// when it is read backwards; otherwise as `backward`.
pub(crate) fn turned_back<K: Links, T: LabelTest, L: Ledger>(
    alloc: Global,
    links: &K,
    to: &OidBuf,
    turned: &Automaton,
    labels: &T,
    buf: &mut OidBuf,
    steps: &mut Steps<L>,
) -> Result<(), NoMemory>
    ensures objects { OnOk result (ExtendsBy (ListsInOrder (ReadsInto (K.edges links.now)
        (ReadsTurned (T.texts labels.now) turned.now) to.now)) buf.old buf.new) }
    ensures steps { OnOk result (TakesReads (reads_in (K.edges links.now))
        (WalksInto (K.edges links.now) to.now) steps.old steps.new) }
    ensures err { OnErr result (Extends buf.old buf.new) }
{
    let mut product = Product {
        direction: Against { links },
        mover: Mover::new(alloc, turned, labels),
        edges: EdgeBuf::new(alloc),
    };
    let starts = starting_at(alloc, to.as_slice(), turned.starts())?;
    let met = search(alloc, &mut product, starts.as_slice(), steps)?;
    append_ended(alloc, met.as_slice(), buf)
}

/// Appends to `buf`, ascending, each once, the objects from which a word that the automaton accepts is
/// walked to some object of `to`.
///
/// The steps grow by at most 65 times the reads of each object from which a member of `to` is walked
/// to: one, and one more for each edge that enters it. Where memory is refused, nothing is promised
/// of `steps`.
pub fn backward<K: Links, T: LabelTest, L: Ledger>(
    alloc: Global,
    links: &K,
    to: &OidBuf,
    automaton: &Automaton,
    labels: &T,
    buf: &mut OidBuf,
    steps: &mut Steps<L>,
) -> Result<(), NoMemory>
    ensures objects { OnOk result (ExtendsBy (ListsInOrder
        (IsAcceptedInto (T.texts labels.now) (K.edges links.now) automaton.now to.now))
        buf.old buf.new) }
    ensures steps { OnOk result (TakesReads (reads_in (K.edges links.now))
        (WalksInto (K.edges links.now) to.now) steps.old steps.new) }
    ensures err { OnErr result (Extends buf.old buf.new) }
{
    let turned = automaton.reversed(alloc)?;
    turned_back(alloc, links, to, &turned, labels, buf, steps)
}
