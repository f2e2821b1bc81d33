ghost use Rattle.std.specs.Prelude.{◌≡◌, ◌↔◌, ℕ, ◌≤◌, ◌<◌, [], length, IfOk, OnOk, IsTrue};
ghost use Rattle.path_expr.specs.Types.{LEAVES, END};
ghost use Rattle.lore_base.specs.Paths.{seq, path_tree, path_trees, trees_of, leaves as leaf_count};
ghost use Rattle.path_expr.specs.Machines.{IsIn, Reads, Follows, Moves, ReadsBackwards};
ghost use Rattle.path_expr.specs.Machines.{Recognises, IsBounded, IsStep, UpToEnd};
ghost use Rattle.path_expr.specs.inside.Compiled.{IsSet, Pushes};
ghost use Rattle.path_expr.specs.inside.Reverses.{Precedes};

use crate::compile::{compile, compile_in_turn};
use crate::leaves::{Leaf, copy_leaves};
use crate::state_sets::{END, States};
use lore_base::{Label, LabelTest, NoMemory, Path, PathList};
use std::alloc::Global;
use std::marker::Model;

/// The automaton of a path, seen by contracts as a machine over labels.
#[derive(Drop)]
pub struct Automaton {
    leaves: Vec<Leaf>,
    follow: Vec<States>,
    start: States,
}

impl Model for Automaton {
    ghost use Rattle.path_expr.specs.Machines.{Machine, IsBounded};

    ghost Value = { Machine };

    ghost view = { λ automaton. record {
      leaves = automaton.leaves.items;
      follow = automaton.follow.items;
      start = automaton.start;
    } };

    ghost invariant = { λ automaton. IsBounded (record {
      leaves = automaton.leaves.items;
      follow = automaton.follow.items;
      start = automaton.start;
    }) };
}

impl Automaton {
    /// The automaton that accepts the words which the path spells (Glushkov 1961). The path has at
    /// most 64 leaves.
    pub fn build(alloc: Global, path: &Path) -> Result<Automaton, NoMemory>
        requires { leaf_count (path_tree path.now) ≤ LEAVES }
        ensures { IfOk result (λ machine. Recognises machine (path_tree path.now)) }
    {
        let mut automaton = Automaton::empty(alloc);
        let start = compile(alloc, path, States::one(END), &mut automaton)?;
        automaton.start = start;
        Ok(automaton)
    }

    /// The automaton that accepts the words which the parts spell one after another. They have at
    /// most 64 leaves.
    pub fn in_turn(alloc: Global, parts: &PathList) -> Result<Automaton, NoMemory>
        requires { leaf_count (seq (trees_of (path_trees parts.now))) ≤ LEAVES }
        ensures { IfOk result (λ machine.
            Recognises machine (seq (trees_of (path_trees parts.now)))) }
    {
        let mut automaton = Automaton::empty(alloc);
        let start = compile_in_turn(alloc, parts, States::one(END), &mut automaton)?;
        automaton.start = start;
        Ok(automaton)
    }

    /// The automaton that accepts the words which this one accepts when they are read backwards.
    pub fn reversed(&self, alloc: Global) -> Result<Automaton, NoMemory>
        ensures { IfOk result (λ back. ReadsBackwards self.now back) }
    {
        let leaves = copy_leaves(alloc, self.leaves.as_slice())?;
        let mut follow = Vec::with_capacity(alloc, self.leaves.len())?;
        'states: for state in 0..self.leaf_count() {
            follow.push(self.before(state))?;
        }
        let start = self.before(END);
        Ok(Automaton {
            leaves,
            follow,
            start,
        })
    }

    // The automaton with no leaf and no start.
    fn empty(alloc: Global) -> Automaton
        ensures { result.leaves ≡ [] }
    {
        Automaton {
            leaves: Vec::new(alloc),
            follow: Vec::new(alloc),
            start: States::none(),
        }
    }

    // The number of leaves.
    pub(crate) fn leaf_count(&self) -> u8
        ensures exact { result ≡ length self.now.leaves }
        ensures within { result ≤ 64 }
    {
        self.leaves.len() as u8
    }

    // Puts a leaf behind the others, with the states that may come after it.
    pub(crate) fn push(&mut self, leaf: Leaf, next: States) -> Result<(), NoMemory>
        requires room { length self.old.leaves < 64 }
        requires within { UpToEnd next }
        ensures { OnOk result (Pushes leaf next self.old self.new) }
    {
        self.leaves.reserve(1)?;
        self.follow.push(next)?;
        let Ok(()) = self.leaves.push(leaf) else {
            unreachable!();
        };
        Ok(())
    }

    // The states that the state may come after, and the end where it is one of the starts.
    fn before(&self, state: u8) -> States
        requires { state ≤ 64 }
        ensures exact { IsSet result (λ other. Precedes self.now other state) }
        ensures within { UpToEnd result }
    {
        let mut before = States::none().with(END, self.start.has(state));
        'leaves: for other in 0..self.leaf_count() {
            before = before.with(other, self.follow(other).has(state));
        }
        before
    }

    /// The states that it begins in.
    pub fn starts(&self) -> States
        ensures exact { result ≡ self.now.start }
        ensures within { UpToEnd result }
        ensures sound { IsBounded self.now }
    {
        self.start
    }

    /// Whether the leaf of the state takes the label; not at the end and beyond, where there is no
    /// leaf. Takes no memory.
    pub fn reads<T: LabelTest>(&self, state: u8, label: Label, labels: &T) -> bool
        ensures { IsTrue result ↔ Reads (T.texts labels.now) self.now state label }
    {
        match self.leaves.get(state as usize) {
            Some(Leaf::One(pattern)) => labels.matches(label, pattern),
            Some(Leaf::AnyLabel) => true,
            None => false,
        }
    }

    /// The states whose leaf takes the label. Takes no memory.
    pub fn readers<T: LabelTest>(&self, label: Label, labels: &T) -> States
        ensures { (state : ℕ) →
            IsIn result state ↔ Reads (T.texts labels.now) self.now state label }
    {
        let mut readers = States::none();
        'states: for state in 0..self.leaf_count() {
            readers = readers.with(state, self.reads(state, label, labels));
        }
        readers
    }

    /// The states that may come after the state; none after the end and beyond.
    pub fn follow(&self, state: u8) -> States
        ensures exact { (next : ℕ) → IsIn result next ↔ Follows self.now state next }
        ensures within { UpToEnd result }
    {
        match self.follow.get(state as usize) {
            Some(next) => *next,
            None => States::none(),
        }
    }

    /// The states that reading the label leads to from the state. Takes no memory.
    pub fn moves<T: LabelTest>(&self, state: u8, label: Label, labels: &T) -> States
        ensures exact { (next : ℕ) →
            IsIn result next ↔ Moves (T.texts labels.now) self.now state label next }
        ensures within { UpToEnd result }
    {
        if self.reads(state, label, labels) {
            self.follow(state)
        } else {
            States::none()
        }
    }

    /// The states that reading the label leads to from some state of the set. Takes no memory.
    pub fn step<T: LabelTest>(&self, states: States, label: Label, labels: &T) -> States
        ensures exact { IsStep (T.texts labels.now) self.now states label result }
        ensures within { UpToEnd result }
    {
        let mut after = States::none();
        let mut from: u8 = 0;
        'states: while let Some(state) = states.next(from) {
            after = after.join(self.moves(state, label, labels));
            from = state + 1;
        }
        after
    }

    /// Whether the end is in the set.
    pub fn accepts(&self, states: States) -> bool
        ensures { IsTrue result ↔ IsIn states END }
    {
        states.has(END)
    }
}
