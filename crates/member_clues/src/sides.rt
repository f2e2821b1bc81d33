ghost use Rattle.std.specs.Prelude.{◌≡◌, ◌≤◌, ℕ, List, Some, option_map, IsTrue, IfOk, IfSome};
ghost use Rattle.std.specs.Option.{option_copied};
ghost use Rattle.lore_base.specs.Paths.{path_tree, leaves, seq, none};
ghost use Rattle.lore_base.specs.Comparisons.{Compares};
ghost use Rattle.index_traits.specs.Entries.{IsProbed};
ghost use Rattle.lorel_bound.specs.Bound.{bound_cond, bound_operand, bound_path};
ghost use Rattle.lorel_bound.specs.Conditions.{exists, compare, at, same};
ghost use Rattle.lorel_bound.specs.Conditions.{operand_paths, paths_of};
ghost use Rattle.lorel_eval.specs.Tests.{rest_leaves};
ghost use Rattle.member_clues.specs.Types.{Value as TheValue, LEAVES};
ghost use Rattle.member_clues.specs.Types.bound_starts;
ghost use Rattle.member_clues.specs.Asked.{IsOutside, IsOperandOutside, given_operand};
ghost use Rattle.member_clues.specs.inside.Reading.{IsFrom, IsItself, IsShort, within};
ghost use Rattle.member_clues.specs.inside.Reading.{IsClueBy, AddsCluesOf};

use crate::clues::{Clue, Comparison, End, Given, Meeting};
use lore_base::{NoMemory, Op, Path};
use lorel_bound::{BoundCond, BoundOperand, BoundPath, BoundStart};
use oem_labels::LabelTable;
use planner::last_label;
use product_walk::{Route, WayBack};
use std::alloc::Global;

/// Puts the clues of a comparison, of values or of objects, behind the others, where it is asked of
/// some object that the path reaches. Other conditions give none.
pub(crate) fn push_sides<'a>(
    alloc: Global,
    path: &'a BoundPath,
    cond: &'a BoundCond,
    labels: &LabelTable,
    clues: &mut Vec<Clue<'a>>,
) -> Result<(), NoMemory>
    requires path { leaves (path_tree path.now.rest) ≤ LEAVES }
    requires cond { rest_leaves (paths_of (bound_cond cond.now)) ≤ LEAVES }
    ensures { AddsCluesOf labels.now (exists (bound_path path.now) (bound_cond cond.now))
        clues.old.items clues.new.items }
{
    match cond {
        BoundCond::Compare { left, op, right } => {
            push_both(alloc, Some(path), left, *op, right, labels, clues)
        }
        BoundCond::Same { left, right } => push_both_met(alloc, Some(path), left, right, clues),
        _ => Ok(()),
    }
}

/// Puts the clues of both sides of a comparison behind the others: each may be sought by the other.
/// Where it is asked of some object that a path reaches, that is the path to go through.
pub(crate) fn push_both<'a>(
    alloc: Global,
    through: Option<&'a BoundPath>,
    left: &'a BoundOperand,
    op: Op,
    right: &'a BoundOperand,
    labels: &LabelTable,
    clues: &mut Vec<Clue<'a>>,
) -> Result<(), NoMemory>
    requires through { IsShort (option_copied through) }
    requires left { rest_leaves (operand_paths (bound_operand left.now)) ≤ LEAVES }
    requires right { rest_leaves (operand_paths (bound_operand right.now)) ≤ LEAVES }
    ensures { AddsCluesOf labels.now (within (option_copied through.entry)
        (compare (bound_operand left.now) op (bound_operand right.now)))
        clues.old.items clues.new.items }
{
    if !is_probed(op) {
        return Ok(());
    }
    push_clue(alloc, through, left, op, right, labels, clues)?;
    push_clue(alloc, through, right, turned(op), left, labels, clues)
}

// Puts the clue of a side behind the others, if it has one.
fn push_clue<'a>(
    alloc: Global,
    through: Option<&'a BoundPath>,
    sought: &'a BoundOperand,
    op: Op,
    given: &'a BoundOperand,
    labels: &LabelTable,
    clues: &mut Vec<Clue<'a>>,
) -> Result<(), NoMemory>
    requires through { IsShort (option_copied through) }
    requires sought { rest_leaves (operand_paths (bound_operand sought.now)) ≤ LEAVES }
    requires given { rest_leaves (operand_paths (bound_operand given.now)) ≤ LEAVES }
    requires probed { IsProbed op }
    ensures { AddsCluesOf labels.now (within (option_copied through.entry)
        (compare (bound_operand sought.now) op (bound_operand given.now)))
        clues.old.items clues.new.items }
{
    let Some(clue) = clue_of(alloc, through, sought, op, given, labels)? else {
        return Ok(());
    };
    clues.push(clue)?;
    Ok(())
}

// The clue of a side that is a path and ends in a plain label.
fn clue_of<'a>(
    alloc: Global,
    through: Option<&'a BoundPath>,
    sought: &'a BoundOperand,
    op: Op,
    given: &'a BoundOperand,
    labels: &LabelTable,
) -> Result<Option<Clue<'a>>, NoMemory>
    requires through { IsShort (option_copied through) }
    requires sought { rest_leaves (operand_paths (bound_operand sought.now)) ≤ LEAVES }
    requires given { rest_leaves (operand_paths (bound_operand given.now)) ≤ LEAVES }
    requires probed { IsProbed op }
    ensures { let asked = compare (bound_operand sought.now) op (bound_operand given.now) in
        IfOk result (λ found. IfSome found
        (IsClueBy labels.now (within (option_copied through.entry) asked))) }
{
    match sought {
        BoundOperand::At(path) => clue_of_side(alloc, through, path, op, given, labels),
        BoundOperand::Atom(_) => Ok(None),
    }
}

// The same where no quantifier tells what is given. Where the side is itself the object that the path
// to go through reaches, that path is sought.
fn clue_of_side<'a>(
    alloc: Global,
    through: Option<&'a BoundPath>,
    path: &'a BoundPath,
    op: Op,
    given: &'a BoundOperand,
    labels: &LabelTable,
) -> Result<Option<Clue<'a>>, NoMemory>
    requires through { IsShort (option_copied through) }
    requires path { leaves (path_tree path.now.rest) ≤ LEAVES }
    requires given { rest_leaves (operand_paths (bound_operand given.now)) ≤ LEAVES }
    requires probed { IsProbed op }
    ensures { let asked = compare (at (bound_path path.now)) op (bound_operand given.now) in
        IfOk result (λ found. IfSome found
        (IsClueBy labels.now (within (option_copied through.entry) asked))) }
{
    if !is_given_outside(given) {
        return Ok(None);
    }
    match reached_itself(through, path) {
        Some(first) => clue_of_path(alloc, None, first, op, given, labels),
        None => clue_of_path(alloc, through, path, op, given, labels),
    }
}

// The path to go through, where the other one is the object that it reaches.
fn reached_itself<'a>(through: Option<&'a BoundPath>, path: &BoundPath) -> Option<&'a BoundPath>
    ensures own { IfSome result (λ first. option_copied through.entry ≡ Some first.now) }
    ensures itself { IfSome result (λ first. IsItself (bound_path path.now)) }
{
    let Some(first) = through else {
        return None;
    };
    if !is_itself(path) {
        return None;
    }
    Some(first)
}

// Whether the path is the object of the outermost quantifier.
fn is_itself(path: &BoundPath) -> bool
    ensures { IsTrue result → IsItself (bound_path path.now) }
{
    match path.start {
        BoundStart::Quantified(0) => is_empty(&path.rest),
        _ => false,
    }
}

// Whether the path has the empty word alone.
fn is_empty(path: &Path) -> bool
    ensures { IsTrue result → path_tree path.now ≡ seq none }
{
    match path {
        Path::Seq(parts) => parts.len() == 0,
        _ => false,
    }
}

fn clue_of_path<'a>(
    alloc: Global,
    through: Option<&'a BoundPath>,
    path: &'a BoundPath,
    op: Op,
    given: &'a BoundOperand,
    labels: &LabelTable,
) -> Result<Option<Clue<'a>>, NoMemory>
    requires through { IsShort (option_copied through) }
    requires path { leaves (path_tree path.now.rest) ≤ LEAVES }
    requires given { rest_leaves (operand_paths (bound_operand given.now)) ≤ LEAVES }
    requires probed { IsProbed op }
    requires outside { IsOperandOutside (bound_operand given.now) }
    ensures { let asked = compare (at (bound_path path.now)) op (bound_operand given.now) in
        IfOk result (λ found. IfSome found
        (IsClueBy labels.now (within (option_copied through.entry) asked))) }
{
    let Some(slot) = slot_of(through, path.start) else {
        return Ok(None);
    };
    let Some(text) = last_label(&path.rest) else {
        return Ok(None);
    };
    let label = labels.find(text);
    let through = way_through(alloc, through)?;
    let way = WayBack::new(alloc, &path.rest)?;
    let given = ready_given(alloc, given)?;
    let end = End::Compared(Comparison { label, op, given });
    Ok(Some(Clue {
        slot,
        through,
        way,
        end,
    }))
}

// The slot whose object the sought path starts at, or from whose object the path to go through
// leads to where it starts; None where it starts elsewhere.
fn slot_of(through: Option<&BoundPath>, start: BoundStart) -> Option<u32>
    ensures { IfSome result (λ slot. IsFrom (option_copied through.entry) slot start) }
{
    match (through, start) {
        (None, BoundStart::Slot(slot)) => Some(slot),
        (Some(path), BoundStart::Quantified(0)) => slot_at(path),
        _ => None,
    }
}

/// The slot that the path starts at; None where it starts at a name or a quantifier's object.
pub fn slot_at(path: &BoundPath) -> Option<u32>
    ensures { IfSome result (λ slot. path.now.start ≡ bound_starts.Slot slot) }
{
    match path.start {
        BoundStart::Slot(slot) => Some(slot),
        _ => None,
    }
}

// The path to go through, if there is one.
fn way_through<'a>(
    alloc: Global,
    through: Option<&'a BoundPath>,
) -> Result<Option<WayBack<'a>>, NoMemory>
    requires { IsShort (option_copied through) }
    ensures { IfOk result (λ way.
        way ≡ option_map (λ p. p.rest) (option_copied through.entry)) }
{
    let Some(path) = through else {
        return Ok(None);
    };
    let way = WayBack::new(alloc, &path.rest)?;
    Ok(Some(way))
}

// Whether no quantifier tells what is given.
fn is_given_outside(given: &BoundOperand) -> bool
    ensures { IsTrue result → IsOperandOutside (bound_operand given.now) }
{
    match given {
        BoundOperand::Atom(_) => true,
        BoundOperand::At(path) => is_outside(path.start),
    }
}

// Whether a path from there starts at no quantifier's object.
fn is_outside(start: BoundStart) -> bool
    ensures { IsTrue result → IsOutside start }
{
    match start {
        BoundStart::Quantified(_) => false,
        _ => true,
    }
}

fn ready_given<'a>(alloc: Global, operand: &'a BoundOperand) -> Result<Given<'a>, NoMemory>
    requires { rest_leaves (operand_paths (bound_operand operand.now)) ≤ LEAVES }
    ensures { IfOk result (λ own. given_operand own ≡ bound_operand operand.now) }
{
    match operand {
        BoundOperand::Atom(value) => Ok(Given::Atom(value)),
        BoundOperand::At(path) => ready_path(alloc, path),
    }
}

fn ready_path<'a>(alloc: Global, path: &'a BoundPath) -> Result<Given<'a>, NoMemory>
    requires { leaves (path_tree path.now.rest) ≤ LEAVES }
    ensures { IfOk result (λ own. given_operand own ≡ at (bound_path path.now)) }
{
    Ok(Given::At {
        start: path.start,
        route: Route::new(alloc, &path.rest)?,
    })
}

/// The same for two paths that are to reach a same object.
pub(crate) fn push_both_met<'a>(
    alloc: Global,
    through: Option<&'a BoundPath>,
    left: &'a BoundPath,
    right: &'a BoundPath,
    clues: &mut Vec<Clue<'a>>,
) -> Result<(), NoMemory>
    requires through { IsShort (option_copied through) }
    requires left { leaves (path_tree left.now.rest) ≤ LEAVES }
    requires right { leaves (path_tree right.now.rest) ≤ LEAVES }
    ensures { (labels : List (List ℕ)) → AddsCluesOf labels
        (within (option_copied through.entry)
        (same (bound_path left.now) (bound_path right.now)))
        clues.old.items clues.new.items }
{
    push_met(alloc, through, left, right, clues)?;
    push_met(alloc, through, right, left, clues)
}

// Puts the clue of one of them behind the others, if it has one.
fn push_met<'a>(
    alloc: Global,
    through: Option<&'a BoundPath>,
    sought: &'a BoundPath,
    other: &'a BoundPath,
    clues: &mut Vec<Clue<'a>>,
) -> Result<(), NoMemory>
    requires through { IsShort (option_copied through) }
    requires sought { leaves (path_tree sought.now.rest) ≤ LEAVES }
    requires other { leaves (path_tree other.now.rest) ≤ LEAVES }
    ensures { (labels : List (List ℕ)) → AddsCluesOf labels
        (within (option_copied through.entry)
        (same (bound_path sought.now) (bound_path other.now)))
        clues.old.items clues.new.items }
{
    let Some(slot) = slot_of(through, sought.start) else {
        return Ok(());
    };
    let start = other.start;
    if !is_outside(start) {
        return Ok(());
    }
    let through = way_through(alloc, through)?;
    let way = WayBack::new(alloc, &sought.rest)?;
    let route = Route::new(alloc, &other.rest)?;
    let end = End::Met(Meeting { start, route });
    clues.push(Clue {
        slot,
        through,
        way,
        end,
    })?;
    Ok(())
}

/// Whether values can be sought that compare so: by all operators but `Ne` and `Like`.
pub fn is_probed(op: Op) -> bool
    ensures { IsTrue result → IsProbed op }
{
    !matches!(op, Op::Ne | Op::Like)
}

// The operator that holds of two values the other way round.
fn turned(op: Op) -> Op
    requires { IsProbed op }
    ensures probed { IsProbed result }
    ensures turned { (a b : TheValue) → Compares a op b → Compares b result a }
{
    match op {
        Op::Lt => Op::Gt,
        Op::Le => Op::Ge,
        Op::Gt => Op::Lt,
        Op::Ge => Op::Le,
        Op::Eq => Op::Eq,
        Op::Ne => Op::Ne,
        Op::Like => Op::Like,
    }
}
