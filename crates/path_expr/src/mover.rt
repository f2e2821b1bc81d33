ghost use Rattle.std.specs.Prelude.{◌≡◌, ◌↔◌, ℕ, IfOk, IfSome};
ghost use Rattle.indexmap.specs.IndexMap.{get};
ghost use Rattle.path_expr.specs.Machines.{IsIn, IsStep, IsBounded, reads_on};
ghost use Rattle.path_expr.specs.inside.Movers.{FollowsSome, AreReaders, IsMove, same_label};

use crate::automata::Automaton;
use crate::state_sets::States;
use indexmap::IndexMap;
use lore_base::{Label, LabelTest, NoMemory};
use std::alloc::Global;
use std::marker::Model;

/// An automaton that moves on labels, and remembers its last move on each: so the text of a label
/// is compared once in a search, and a move from the same states as the last one is looked up.
/// Contracts see the machine and the texts of the labels, which no move changes.
#[derive(Drop)]
pub struct Mover<'a, T: LabelTest> {
    automaton: &'a Automaton,
    labels: &'a T,
    moves: IndexMap<Label, Move>,
}

// The states that read a label, and where it led from some states.
#[derive(Clone, Copy)]
struct Move {
    readers: States,
    from: States,
    after: States,
}

impl<'a, T: LabelTest> Model for Mover<'a, T> {
    ghost use Rattle.path_expr.specs.inside.Movers.{Remembers, same_label};
    ghost use Rattle.path_expr.specs.Machines.{Moving, IsBounded};
    ghost use Rattle.indexmap.specs.IndexMap.{get};

    ghost Value = { Moving };

    ghost view = { λ mover. record {
      labels = T.texts mover.labels.now;
      machine = mover.automaton.now;
    } };

    ghost invariant = { λ mover.
        Remembers (T.texts mover.labels.now) mover.automaton.now (get same_label mover.moves)
        × IsBounded mover.automaton.now };
}

// The states that may come after some state of the set.
fn followers(automaton: &Automaton, states: States) -> States
    ensures { (next : ℕ) → IsIn result next ↔ FollowsSome automaton.now states next }
{
    let mut after = States::none();
    let mut from: u8 = 0;
    'states: while let Some(state) = states.next(from) {
        after = after.join(automaton.follow(state));
        from = state + 1;
    }
    after
}

// What is remembered of the label.
fn remembered(moves: &IndexMap<Label, Move>, label: Label) -> Option<Move>
    ensures { result ≡ get same_label moves.now label }
{
    moves.get(&label).copied()
}

// The states whose leaf takes the label. Where a move on it is known they are told without a look
// at its text.
fn readers_of<T: LabelTest>(
    automaton: &Automaton,
    labels: &T,
    label: Label,
    known: Option<Move>,
) -> States
    requires { IfSome known (IsMove (T.texts labels.now) automaton.now label) }
    ensures { AreReaders (T.texts labels.now) automaton.now label result }
{
    match known {
        Some(known) => known.readers,
        None => automaton.readers(label, labels),
    }
}

impl<'a, T: LabelTest> Mover<'a, T> {
    /// The automaton over the labels, with nothing remembered. Takes no memory.
    pub fn new(alloc: Global, automaton: &'a Automaton, labels: &'a T) -> Mover<'a, T>
        ensures labels { result.labels ≡ T.texts labels.now }
        ensures machine { result.machine ≡ automaton.now }
    {
        let _starts = automaton.starts();
        Mover {
            automaton,
            labels,
            moves: IndexMap::new(alloc),
        }
    }

    /// Whether some of the states come before the end, so that the automaton may move from there.
    pub fn moves_on(&self, states: States) -> bool
        ensures test { result ≡ reads_on states }
        ensures sound { IsBounded self.now.machine }
    {
        let _ = &self.automaton;
        states.reads_on()
    }

    /// The states that the label leads to from some state of the set. Takes memory only where the
    /// label is new to it.
    pub fn after(&mut self, states: States, label: Label) -> Result<States, NoMemory>
        ensures step { IfOk result
            (λ after. IsStep self.old.labels self.old.machine states label after) }
        ensures same { self.new ≡ self.old }
    {
        let known = remembered(&self.moves, label);
        if let Some(known) = known {
            if known.from.0 == states.0 {
                return Ok(known.after);
            }
        }
        let readers = readers_of(self.automaton, self.labels, label, known);
        let after = followers(self.automaton, states.meet(readers));
        self.moves.insert(
            label,
            Move {
                readers,
                from: states,
                after,
            },
        )?;
        Ok(after)
    }
}
