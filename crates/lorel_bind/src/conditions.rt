ghost use Rattle.std.specs.Prelude.{◌≡◌, ◌+◌, ◌≤◌, List, length, map, option_map, MatchOption};
ghost use Rattle.std.specs.Prelude.{◌++◌, IfOk, OnOk};
ghost use Rattle.lore_base.specs.Paths.{path_tree, path_trees, seq, trees_of};
ghost use Rattle.lorel_trees.specs.Trees.{cond_tree, conds_from, operand_tree, rooted_tree};
ghost use Rattle.lorel_trees.specs.Trees as t;
ghost use Rattle.lorel_bind.specs.Types.{NESTING};
ghost use Rattle.lorel_ranges.specs.Places.{Scope};
ghost use Rattle.lorel_ranges.specs.Conditions.{cond_in};
ghost use Rattle.lorel_ranges.specs.Ranges.{PlacedRange};
ghost use Rattle.lorel_bound.specs.Bound.{bound_path, bound_operand, bound_cond, bound_conds};
ghost use Rattle.lorel_bound.specs.Bound as b;
ghost use Rattle.lorel_bind.specs.Bindings.{CorrespondIf};
ghost use Rattle.lorel_ranges.specs.Texts.{depth_of, depth_of_all};
ghost use Rattle.lorel_bind.specs.inside.Binders.{Serves, Binds, BindsRooted, BindsOperand};
ghost use Rattle.lorel_bind.specs.inside.Binders.{BindsCond, BindsEach};

use crate::slots::Slots;
use lore_base::{NoMemory, OemText, Op, Path, PathList, TryCopy};
use lorel_bound::{BoundCond, BoundCondList, BoundOperand, BoundPath};
use lorel_ranges::{Place, PlainPlaces, Variables, quantifiers_around};
use lorel_trees::{Cond, Operand, Rooted};
use std::alloc::Global;

// What the paths of a condition are bound by.
#[derive(Drop)]
pub(crate) struct Binder<'b, 'q, 'n> {
    pub(crate) variables: &'b Variables<'q>,
    pub(crate) plain: &'b PlainPlaces<'q>,
    pub(crate) slots: &'b Slots<'q, 'n>,
}

impl<'b, 'q, 'n> Binder<'b, 'q, 'n> {
    // The condition by slots, if there is one.
    pub(crate) fn condition(
        &self,
        alloc: Global,
        cond: &'q Option<Cond>,
    ) -> Result<Option<BoundCond>, NoMemory>
        requires shallow { MatchOption cond.now (Unit {0}) (λ cond. depth_of (cond_tree cond) ≤ NESTING) }
        ensures { IfOk result (λ bound. (plain : List PlacedRange) (scope : Scope)
            → Serves self.now plain scope
            → CorrespondIf (Binds self.now plain)
            (option_map (cond_in scope 0) (option_map cond_tree cond.now)) (option_map bound_cond bound)) }
    {
        match cond {
            Some(cond) => Ok(Some(self.cond(alloc, &[], cond)?)),
            None => Ok(None),
        }
    }

    // The condition by slots, within the quantifiers of these variables, the outermost first.
    #[cycle(bind)]
    fn cond(
        &self,
        alloc: Global,
        quantified: &[&'q OemText],
        cond: &'q Cond,
    ) -> Result<BoundCond, NoMemory>
        requires shallow { length quantified.now + depth_of (cond_tree cond.now) ≤ NESTING }
        ensures { IfOk result (λ bound.
            BindsCond self.now quantified.now (cond_tree cond.now) (bound_cond bound)) }
    {
        match cond {
            Cond::Or(members) => Ok(BoundCond::Or(self.conds(
                alloc,
                quantified,
                members.as_slice(),
            )?)),
            Cond::And(members) => Ok(BoundCond::And(self.conds(
                alloc,
                quantified,
                members.as_slice(),
            )?)),
            Cond::Not(body) => Ok(BoundCond::Not(Box::new(
                alloc,
                self.cond(alloc, quantified, body)?,
            )?)),
            Cond::Exists {
                variable,
                path,
                body,
            } => {
                let path = self.path(alloc, quantified, path)?;
                let inner = quantifiers_around(alloc, quantified, variable)?;
                let body = Box::new(alloc, self.cond(alloc, inner.as_slice(), body)?)?;
                Ok(BoundCond::Exists { path, body })
            }
            Cond::ForAll {
                variable,
                path,
                body,
            } => {
                let path = self.path(alloc, quantified, path)?;
                let inner = quantifiers_around(alloc, quantified, variable)?;
                let body = Box::new(alloc, self.cond(alloc, inner.as_slice(), body)?)?;
                Ok(BoundCond::ForAll { path, body })
            }
            Cond::Compare { left, op, right } => self.comparison(
                alloc, quantified, left, *op, right,
            ),
            Cond::Same { left, right } => self.sameness(alloc, quantified, left, right),
        }
    }

    #[cycle(bind)]
    fn conds(
        &self,
        alloc: Global,
        quantified: &[&'q OemText],
        conds: &'q [Cond],
    ) -> Result<BoundCondList, NoMemory>
        requires shallow { length quantified.now + depth_of_all (conds_from (map cond_tree conds.now))
            ≤ NESTING }
        ensures { IfOk result (λ bound. BindsEach self.now quantified.now
            (conds_from (map cond_tree conds.now)) (b.conds_from (bound_conds bound))) }
    {
        let mut list = BoundCondList::new(alloc);
        'conds: for cond in conds {
            list.push(self.cond(alloc, quantified, cond)?)?;
        }
        Ok(list)
    }

    fn comparison(
        &self,
        alloc: Global,
        quantified: &[&'q OemText],
        left: &'q Operand,
        op: Op,
        right: &'q Operand,
    ) -> Result<BoundCond, NoMemory>
        requires shallow { length quantified.now ≤ NESTING }
        ensures { IfOk result (λ bound. BindsCond self.now quantified.now
            (t.compare (operand_tree left.now) op (operand_tree right.now)) (bound_cond bound)) }
    {
        let left = self.operand(alloc, quantified, left)?;
        let right = self.operand(alloc, quantified, right)?;
        Ok(BoundCond::Compare { left, op, right })
    }

    fn sameness(
        &self,
        alloc: Global,
        quantified: &[&'q OemText],
        left: &'q Rooted,
        right: &'q Rooted,
    ) -> Result<BoundCond, NoMemory>
        requires shallow { length quantified.now ≤ NESTING }
        ensures { IfOk result (λ bound. BindsCond self.now quantified.now
            (t.same (rooted_tree left.now) (rooted_tree right.now)) (bound_cond bound)) }
    {
        let left = self.path(alloc, quantified, left)?;
        let right = self.path(alloc, quantified, right)?;
        Ok(BoundCond::Same { left, right })
    }

    fn operand(
        &self,
        alloc: Global,
        quantified: &[&'q OemText],
        operand: &'q Operand,
    ) -> Result<BoundOperand, NoMemory>
        requires shallow { length quantified.now ≤ NESTING }
        ensures { IfOk result (λ bound.
            BindsOperand self.now quantified.now (operand_tree operand.now) (bound_operand bound)) }
    {
        match operand {
            Operand::Atom(value) => Ok(BoundOperand::Atom(value.try_copy(alloc)?)),
            Operand::At(path) => Ok(BoundOperand::At(self.path(alloc, quantified, path)?)),
        }
    }

    // A path: it starts at its longest prefix that is a range, or where it starts itself.
    fn path(
        &self,
        alloc: Global,
        quantified: &[&'q OemText],
        path: &'q Rooted,
    ) -> Result<BoundPath, NoMemory>
        requires shallow { length quantified.now ≤ NESTING }
        ensures { IfOk result (λ bound.
            BindsRooted self.now quantified.now (rooted_tree path.now) (bound_path bound)) }
    {
        let place = self.variables.place(quantified, path);
        let fixed = self.plain.fixed_len(place);
        let rest = sequence(alloc, &place.parts[fixed..])?;
        Ok(BoundPath {
            start: self.slots.bound_start(place.prefix(fixed)),
            rest,
        })
    }
}

// The path of these parts, one after another.
fn sequence(alloc: Global, parts: &[Path]) -> Result<Path, NoMemory>
    ensures { IfOk result (λ path. path_tree path ≡ seq (trees_of (map path_tree parts.now))) }
{
    let mut list = PathList::new(alloc);
    match push_copies(alloc, parts, &mut list) {
        Ok(()) => Ok(Path::Seq(list)),
        Err(error) => {
            drop(list);
            Err(error)
        }
    }
}

// Puts copies of the parts behind those that are there.
fn push_copies(alloc: Global, parts: &[Path], list: &mut PathList) -> Result<(), NoMemory>
    ensures { OnOk result (path_trees list.new ≡ path_trees list.old ++ map path_tree parts.now) }
{
    'parts: for part in parts {
        list.push(part.try_copy(alloc)?)?;
    }
    Ok(())
}
