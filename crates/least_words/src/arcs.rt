ghost use Rattle.std.specs.Prelude.{◌≡◌, ◌+◌, sum_by, OnOk};
ghost use Rattle.least_words.specs.inside.Arcs.{LeadsBy, LeadsFrom, LeadsFromSome, IsArcTo, IsNext};
ghost use Rattle.least_words.specs.inside.Arcs.{AddsArcs, reads_at};

use crate::groups::Place;
use index_traits::Adjacent;
use lore_base::{Edge, EdgeBuf, Label, LabelTest, NoMemory, Oid, Steps};
use path_expr::{Mover, States};
use std::sync::ledger::Ledger;

// A label that leads to an object under these states.
#[derive(Clone, Copy)]
pub(crate) struct Arc {
    pub(crate) label: Label,
    pub(crate) oid: Oid,
    pub(crate) states: States,
}

// Appends the arc, if it has a state.
fn push_arc(arcs: &mut Vec<Arc>, arc: Arc) -> Result<(), NoMemory>
    ensures { OnOk result (AddsArcs (IsArcTo arc) arcs.old.items arcs.new.items) }
{
    if arc.states.is_empty() {
        return Ok(());
    }
    arcs.push(arc)?;
    Ok(())
}

// Appends an arc for each edge, with the states that its label leads to from the states.
fn push_ends<T: LabelTest>(
    mover: &mut Mover<T>,
    states: States,
    edges: &[Edge],
    arcs: &mut Vec<Arc>,
) -> Result<(), NoMemory>
    ensures arcs { OnOk result (AddsArcs
        (IsNext mover.old.labels mover.old.machine states edges.now)
        arcs.old.items arcs.new.items) }
    ensures same { mover.new ≡ mover.old }
{
    'edges: for edge in edges {
        let after = mover.after(states, edge.label)?;
        let arc = Arc {
            label: edge.label,
            oid: edge.child,
            states: after,
        };
        push_arc(arcs, arc)?;
    }
    Ok(())
}

// Appends the arcs of the place. Its edges are put into `edges`, whose room is used again.
fn push_arcs<A: Adjacent, T: LabelTest, L: Ledger>(
    graph: &A,
    mover: &mut Mover<T>,
    place: Place,
    edges: &mut EdgeBuf,
    arcs: &mut Vec<Arc>,
    steps: &mut Steps<L>,
) -> Result<(), NoMemory>
    ensures arcs { OnOk result (AddsArcs (LeadsFrom (LeadsBy mover.old.labels mover.old.machine
        (A.edges graph.now)) place) arcs.old.items arcs.new.items) }
    ensures steps { OnOk result (steps.new ≡ steps.old + reads_at (A.edges graph.now) place) }
    ensures same { mover.new ≡ mover.old }
{
    if !mover.moves_on(place.states) {
        return Ok(());
    }
    edges.cut(0);
    graph.out_edges(place.oid, edges, steps)?;
    push_ends(mover, place.states, edges.as_slice(), arcs)
}

// Appends the arcs of all places.
pub(crate) fn push_all<A: Adjacent, T: LabelTest, L: Ledger>(
    graph: &A,
    mover: &mut Mover<T>,
    places: &[Place],
    edges: &mut EdgeBuf,
    arcs: &mut Vec<Arc>,
    steps: &mut Steps<L>,
) -> Result<(), NoMemory>
    ensures arcs { OnOk result (AddsArcs (LeadsFromSome (LeadsBy mover.old.labels
        mover.old.machine (A.edges graph.now)) places.now) arcs.old.items arcs.new.items) }
    ensures steps { OnOk result
        (steps.new ≡ steps.old + sum_by (reads_at (A.edges graph.now)) places.now) }
    ensures same { mover.new ≡ mover.old }
{
    'places: for place in places {
        push_arcs(graph, mover, *place, edges, arcs, steps)?;
    }
    Ok(())
}
