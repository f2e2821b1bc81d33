ghost use Rattle.std.specs.Prelude.{◌≡◌, ◌≤◌, ℕ, List, [], ◌∷◌, ◌++◌, length, map, None, OnOk};
ghost use Rattle.std.specs.Prelude.{OnErr};
ghost use Rattle.lorel_ranges.specs.Types.{NESTING};
ghost use Rattle.lorel_trees.specs.Trees.{rooted_tree};
ghost use Rattle.lorel_ranges.specs.Places.{Scope, root_of, place_of};
ghost use Rattle.lorel_ranges.specs.Scopes.{enclosed, IsScope, names_of, linked};
ghost use Rattle.lorel_ranges.specs.inside.Scopes.{IsAdded, innermost};
ghost use Rattle.lorel_ranges.specs.Views.{root_tree, place_tree, texts};

use crate::places::{Place, Root};
use indexmap::IndexMap;
use lore_base::{NoMemory, OemText};
use lorel_trees::Rooted;
use std::alloc::Global;
use std::marker::Model;

/// The object variables of from items that are in scope, each with a number.
#[derive(Drop)]
pub struct Variables<'q> {
    numbers: IndexMap<&'q [u8], usize>,
}

impl<'q> Model for Variables<'q> {
    ghost use Rattle.std.specs.Prelude.{ℕ, List, map};

    ghost Value = { List (List ℕ × ℕ) };

    ghost view = { λ v. map (λ entry. (entry.0.now, entry.1)) v.numbers.entries };
}

impl<'q> Variables<'q> {
    // No variable is in scope. Takes no memory.
    pub(crate) fn new(alloc: Global) -> Variables<'q>
        ensures { result ≡ [] }
    {
        Variables {
            numbers: IndexMap::new(alloc),
        }
    }

    // The number of the variable's range; None exactly where it isn't in scope.
    pub(crate) fn number(&self, variable: &OemText) -> Option<usize>
        ensures { result ≡ linked self.now variable.now }
    {
        self.numbers.get(variable.as_bytes()).copied()
    }

    // Brings a variable into scope that isn't yet.
    pub(crate) fn add(&mut self, variable: &'q OemText, number: usize) -> Result<(), NoMemory>
        requires { linked self.old variable.now ≡ None }
        ensures ok { OnOk result (self.new ≡ self.old ++ (variable.now, number) ∷ []) }
        ensures err { OnErr result (self.new ≡ self.old) }
    {
        self.numbers.insert(variable.as_bytes(), number)?;
        Ok(())
    }

    // Brings the variable of a from item into scope, if it has one that isn't yet.
    pub(crate) fn add_first(
        &mut self,
        variable: &'q Option<OemText>,
        number: usize,
    ) -> Result<(), NoMemory>
        ensures { OnOk result (IsAdded variable.now number self.old self.new) }
    {
        match variable {
            Some(text) if self.number(text).is_none() => self.add(text, number),
            _ => Ok(()),
        }
    }

    /// What a path stands for, within the quantifiers of these variables, the outermost first.
    pub fn place(&self, quantified: &[&'q OemText], path: &'q Rooted) -> Place<'q>
        requires { length quantified.now ≤ NESTING }
        ensures { (scope : Scope) → IsScope (names_of self.now) scope → place_tree result
            ≡ place_of (enclosed 0 (texts quantified.now) scope) (rooted_tree path.now) }
    {
        Place {
            root: self.root(quantified, &path.start),
            parts: path.parts.as_slice(),
        }
    }

    // Where a path with this start starts, within the quantifiers of these variables, the outermost
    // first.
    fn root(&self, quantified: &[&'q OemText], start: &'q OemText) -> Root<'q>
        requires { length quantified.now ≤ NESTING }
        ensures { (scope : Scope) → IsScope (names_of self.now) scope → root_tree result
            ≡ root_of (enclosed 0 (texts quantified.now) scope) start.now }
    {
        match innermost(quantified, start) {
            Some(depth) => Root::Quantified(depth as u32),
            None if self.number(start).is_some() => Root::Ranged(start),
            None => Root::Named(start),
        }
    }
}

// The number of the innermost quantifier with this variable, counted from the outermost.
fn innermost(quantified: &[&OemText], start: &OemText) -> Option<usize>
    ensures { result ≡ innermost (texts quantified.now) start.now }
{
    let mut found = None;
    'quantifiers: for (depth, variable) in quantified.iter().enumerate() {
        if *variable == start {
            found = Some(depth);
        }
    }
    found
}
