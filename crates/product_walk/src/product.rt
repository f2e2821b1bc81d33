ghost use Rattle.std.specs.Prelude.{◌≡◌, ◌↔◌, ◌==◌, not, cond, ℕ, ◌+◌, true, List, IsTrue, OnOk};
ghost use Rattle.graph_search.specs.Closures.{LeadsFromPlace, Lists};
ghost use Rattle.path_expr.specs.Machines.{IsIn, reads_on};
ghost use Rattle.product_walk.specs.Types.{Oid as TheOid};
ghost use Rattle.product_walk.specs.inside.Products.{Product as TheProduct, product_of, Leads, IsNext};
ghost use Rattle.product_walk.specs.inside.Arcs.{along};
ghost use Rattle.product_walk.specs.inside.StateSets.{HasState, same_oid};

use crate::direction::{Arcs, Direction, Listed};
use crate::state_marks::StateMarks;
use graph_search::{Counter, Space};
use lore_base::{Edge, EdgeBuf, LabelTest, NoMemory, Oid, Steps};
use path_expr::{Mover, States};
use std::alloc::Global;
use std::sync::ledger::Ledger;

// The product of a graph, read in one direction, with an automaton: an object under a state leads to
// the far end of an edge under the states that the edge's label leads to.
#[derive(Drop)]
pub(crate) struct Product<'a, D, T: LabelTest> {
    pub(crate) direction: D,
    pub(crate) mover: Mover<'a, T>,
    pub(crate) edges: EdgeBuf,
}

// Appends the object with the states, if there are any.
fn push_end(out: &mut Vec<(Oid, StateMarks)>, oid: Oid, states: States) -> Result<(), NoMemory>
    ensures { OnOk result (Lists HasState (λ there. (there.0 ≡ oid) × IsIn states there.1)
        out.old.items out.new.items) }
{
    if states.is_empty() {
        return Ok(());
    }
    out.push((oid, StateMarks(states)))?;
    Ok(())
}

// Appends the far ends of the edges, each with the states that its label leads to from the states.
fn push_ends<D: Arcs, T: LabelTest>(
    direction: &D,
    mover: &mut Mover<T>,
    states: States,
    edges: &[Edge],
    out: &mut Vec<(Oid, StateMarks)>,
) -> Result<(), NoMemory>
    ensures next { OnOk result (Lists HasState
        (IsNext mover.old.labels mover.old.machine D.far edges.now states)
        out.old.items out.new.items) }
    ensures same { mover.new ≡ mover.old }
{
    out.reserve(edges.len())?;
    'edges: for edge in edges {
        let after = mover.after(states, edge.label)?;
        push_end(out, direction.far_end(edge), after)?;
    }
    Ok(())
}

impl<'a, D: Direction, T: LabelTest, L: Ledger> Space<Steps<L>> for Product<'a, D, T> {
    type Node = Oid;

    type Marks = StateMarks;

    ghost Seen = { TheProduct };

    ghost seen = { λ product. product_of product.mover (D.edges product.direction) };

    ghost leads = { λ seen. Leads seen.labels seen.machine (D.goes seen.edges) };

    ghost cost = { λ seen place. cond (reads_on (place.1).0) (D.reads seen.edges place.0) 0 };

    fn push_next(
        &mut self,
        _alloc: Global,
        place: (Oid, StateMarks),
        out: &mut Vec<(Oid, StateMarks)>,
        steps: &mut Steps<L>,
    ) -> Result<(), NoMemory>
        ensures next { OnOk result (Lists HasState (LeadsFromPlace HasState
            (Leads self.old.mover.labels self.old.mover.machine
            (D.goes (D.edges self.old.direction))) place) out.old.items out.new.items) }
        ensures steps { OnOk result (steps.new ≡ steps.old
            + cond (reads_on (place.1).0) (D.reads (D.edges self.old.direction) place.0) 0) }
        ensures same { product_of self.new.mover (D.edges self.new.direction)
            ≡ product_of self.old.mover (D.edges self.old.direction) }
    {
        if !self.mover.moves_on(place.1.0) {
            return Ok(());
        }
        self.edges.cut(0);
        self.direction.read(place.0, &mut self.edges, steps)?;
        push_ends(
            &self.direction,
            &mut self.mover,
            place.1.0,
            self.edges.as_slice(),
            out,
        )?;
        Ok(())
    }

    ghost exact = { same_oid };
}

impl<'a, T: LabelTest> Space<()> for Product<'a, Listed<'a>, T> {
    type Node = Oid;

    type Marks = StateMarks;

    ghost Seen = { TheProduct };

    ghost seen = { λ product. product_of product.mover product.direction.list.now };

    ghost leads = { λ seen. Leads seen.labels seen.machine (along seen.edges) };

    ghost cost = { λ _ _. 0 };

    fn push_next(
        &mut self,
        _alloc: Global,
        place: (Oid, StateMarks),
        out: &mut Vec<(Oid, StateMarks)>,
        steps: &mut (),
    ) -> Result<(), NoMemory>
        ensures next { OnOk result (Lists HasState (LeadsFromPlace HasState
            (Leads self.old.mover.labels self.old.mover.machine
            (along self.old.direction.list.now)) place) out.old.items out.new.items) }
        ensures steps { OnOk result
            (⟦<() as Counter>⟧.count steps.new ≡ ⟦<() as Counter>⟧.count steps.old + 0) }
        ensures same { product_of self.new.mover self.new.direction.list.now
            ≡ product_of self.old.mover self.old.direction.list.now }
    {
        let () = *steps;
        self.edges.cut(0);
        self.direction.list_out(place.0, &mut self.edges)?;
        push_ends(
            &self.direction,
            &mut self.mover,
            place.1.0,
            self.edges.as_slice(),
            out,
        )?;
        Ok(())
    }

    ghost exact = { same_oid };
}
