ghost use Rattle.std.specs.Prelude.{◌≡◌, ◌+◌, ◌-◌, ◌≤◌, length, take, drop, sum_by, IfOk, OnOk};
ghost use Rattle.std.specs.List.Sorted.{IsNonDecreasingBy, IsPermutation};
ghost use Rattle.path_expr.specs.Machines.{IsIn};
ghost use Rattle.least_words.specs.inside.Arcs.{LeadsBy, AreArcsFrom, reads_at};
ghost use Rattle.least_words.specs.inside.Groups.{AreBack, found_of};
ghost use Rattle.least_words.specs.inside.Searches.{AreFound};

use crate::arcs::{Arc, push_all};
use crate::groups::{Groups, Place, end_of};
use index_traits::Adjacent;
use lore_base::{EdgeBuf, LabelTest, NoMemory, Oid, Steps};
use path_expr::{Automaton, Mover};
use std::alloc::Global;
use std::sync::ledger::Ledger;

// Puts the arcs in the order of their labels.
fn sort_arcs(arcs: &mut Vec<Arc>)
    ensures ascend { IsNonDecreasingBy (λ arc. arc.label.0) arcs.new.items }
    ensures same { IsPermutation arcs.old.items arcs.new.items }
{
    arcs.sort_unstable_by_key(|arc| arc.label.0);
}

// The places from one place on and before another.
fn part_of(places: &[Place], first: usize, end: usize) -> &[Place]
    requires order { first ≤ end }
    requires within { end ≤ length places.now }
    ensures { result.now ≡ take (end - first) (drop first places.now) }
{
    &places[first..end]
}

// Puts the arcs of the places, in the order of their labels, in place of those in `arcs`.
fn find_arcs<A: Adjacent, T: LabelTest, L: Ledger>(
    graph: &A,
    mover: &mut Mover<T>,
    places: &[Place],
    edges: &mut EdgeBuf,
    arcs: &mut Vec<Arc>,
    steps: &mut Steps<L>,
) -> Result<(), NoMemory>
    ensures exact { OnOk result (AreArcsFrom (LeadsBy mover.old.labels mover.old.machine
        (A.edges graph.now)) places.now arcs.new.items) }
    ensures ascend { OnOk result (IsNonDecreasingBy (λ arc. arc.label.0) arcs.new.items) }
    ensures steps { OnOk result
        (steps.new ≡ steps.old + sum_by (reads_at (A.edges graph.now)) places.now) }
    ensures same { mover.new ≡ mover.old }
{
    arcs.clear();
    push_all(graph, mover, places, edges, arcs, steps)?;
    sort_arcs(arcs);
    Ok(())
}

// All that the product of the graph with the automaton leads to from the object, in groups that
// rise by their words.
pub(crate) fn find_all<A: Adjacent, T: LabelTest, L: Ledger>(
    alloc: Global,
    graph: &A,
    from: Oid,
    automaton: &Automaton,
    labels: &T,
    steps: &mut Steps<L>,
) -> Result<Groups, NoMemory>
    ensures found { IfOk result (λ groups. AreFound
        (LeadsBy (T.texts labels.now) automaton.now (A.edges graph.now))
        (λ there. (from ≡ there.0) × IsIn automaton.now.start there.1)
        (found_of groups.places.items groups.origins.items)) }
    ensures back { IfOk result (λ groups. AreBack groups.origins.items) }
    ensures steps { IfOk result (λ groups. steps.new
        ≡ steps.old + sum_by (reads_at (A.edges graph.now)) groups.places.items) }
{
    let mut groups = Groups::new(alloc, from, automaton.starts())?;
    let mut mover = Mover::new(alloc, automaton, labels);
    let mut edges = EdgeBuf::new(alloc);
    let mut arcs = Vec::new(alloc);
    let mut next = 0;
    'places: while next < groups.places.len() {
        let met = groups.places.as_slice();
        let group = met[next].group;
        let end = end_of(met, next);
        let turn = part_of(met, next, end);
        find_arcs(graph, &mut mover, turn, &mut edges, &mut arcs, steps)?;
        groups.follow_all(group, arcs.as_slice())?;
        next = end;
    }
    Ok(groups)
}
