ghost use Rattle.std.specs.Prelude.{◌≤◌, map, All, IfOk};
ghost use Rattle.lore_base.specs.Paths.{path_tree, leaves};
ghost use Rattle.lorel_bound.specs.Bound.{bound_cond, bound_path};
ghost use Rattle.lorel_bound.specs.Bound.{conds_from};
ghost use Rattle.lorel_bound.specs.Conditions.{and, exists, paths_of, paths_of_all};
ghost use Rattle.lorel_eval.specs.Tests.{rest_leaves};
ghost use Rattle.member_clues.specs.Types.{LEAVES};
ghost use Rattle.member_clues.specs.Clues.{IsClueOf};
ghost use Rattle.member_clues.specs.inside.Reading.{AddsCluesOf};

use crate::sides::{push_both, push_both_met, push_sides};
use lore_base::{Label, NoMemory, Op, Value};
use lorel_bound::{BoundCond, BoundPath, BoundStart};
use oem_labels::LabelTable;
use product_walk::{Route, WayBack};
use std::alloc::Global;

/// What a member of a condition tells of a slot: where a path from its object leads, or, where
/// there is a path to go through, one from an object that this path reaches.
#[derive(Drop)]
pub struct Clue<'a> {
    pub slot: u32,
    pub through: Option<WayBack<'a>>,
    pub way: WayBack<'a>,
    pub end: End<'a>,
}

/// Where the path of a clue leads.
#[derive(Drop)]
pub enum End<'a> {
    Compared(Comparison<'a>),
    Met(Meeting<'a>),
}

/// To a value under the label that compares so with one that is given.
#[derive(Drop)]
pub struct Comparison<'a> {
    /// None where the table of labels has no such text.
    pub label: Option<Label>,
    pub op: Op,
    pub given: Given<'a>,
}

/// The other side of the comparison: a value, or each that a path reaches.
#[derive(Drop)]
pub enum Given<'a> {
    Atom(&'a Value),
    At { start: BoundStart, route: Route<'a> },
}

/// To an object that another path reaches.
#[derive(Drop)]
pub struct Meeting<'a> {
    pub start: BoundStart,
    pub route: Route<'a>,
}

/// The clues that the condition gives: it itself, or the members of its topmost `and`. Those of
/// comparisons come first, then those of paths that are to reach a same object and of `exists`,
/// both as the members stand; of a member the left side comes before the right one. Fails for want
/// of memory alone.
pub fn clues_of<'a>(
    alloc: Global,
    cond: &'a BoundCond,
    labels: &LabelTable,
) -> Result<Vec<Clue<'a>>, NoMemory>
    requires { rest_leaves (paths_of (bound_cond cond.now)) ≤ LEAVES }
    ensures { IfOk result (λ clues.
        All (IsClueOf labels.now (bound_cond cond.now)) clues.items) }
{
    let mut clues = Vec::new(alloc);
    push_clues(alloc, cond, labels, &mut clues)?;
    Ok(clues)
}

fn push_clues<'a>(
    alloc: Global,
    cond: &'a BoundCond,
    labels: &LabelTable,
    clues: &mut Vec<Clue<'a>>,
) -> Result<(), NoMemory>
    requires { rest_leaves (paths_of (bound_cond cond.now)) ≤ LEAVES }
    ensures { AddsCluesOf labels.now (bound_cond cond.now) clues.old.items clues.new.items }
{
    match cond {
        BoundCond::And(members) => push_all(alloc, members.as_slice(), labels, clues),
        _ => push_own(alloc, cond, labels, clues),
    }
}

// The clues of an `and` of these members.
fn push_all<'a>(
    alloc: Global,
    members: &'a [BoundCond],
    labels: &LabelTable,
    clues: &mut Vec<Clue<'a>>,
) -> Result<(), NoMemory>
    requires { rest_leaves (paths_of_all (conds_from (map bound_cond members.now))) ≤ LEAVES }
    ensures { AddsCluesOf labels.now (and (conds_from (map bound_cond members.now)))
        clues.old.items clues.new.items }
{
    push_each_compared(alloc, members, labels, clues)?;
    push_each_other(alloc, members, labels, clues)
}

fn push_each_compared<'a>(
    alloc: Global,
    members: &'a [BoundCond],
    labels: &LabelTable,
    clues: &mut Vec<Clue<'a>>,
) -> Result<(), NoMemory>
    requires { rest_leaves (paths_of_all (conds_from (map bound_cond members.now))) ≤ LEAVES }
    ensures { AddsCluesOf labels.now (and (conds_from (map bound_cond members.now)))
        clues.old.items clues.new.items }
{
    'members: for member in members {
        push_compared(alloc, member, labels, clues)?;
    }
    Ok(())
}

fn push_each_other<'a>(
    alloc: Global,
    members: &'a [BoundCond],
    labels: &LabelTable,
    clues: &mut Vec<Clue<'a>>,
) -> Result<(), NoMemory>
    requires { rest_leaves (paths_of_all (conds_from (map bound_cond members.now))) ≤ LEAVES }
    ensures { AddsCluesOf labels.now (and (conds_from (map bound_cond members.now)))
        clues.old.items clues.new.items }
{
    'members: for member in members {
        push_other(alloc, member, labels, clues)?;
    }
    Ok(())
}

// The clues of a condition that is no `and`.
fn push_own<'a>(
    alloc: Global,
    cond: &'a BoundCond,
    labels: &LabelTable,
    clues: &mut Vec<Clue<'a>>,
) -> Result<(), NoMemory>
    requires { rest_leaves (paths_of (bound_cond cond.now)) ≤ LEAVES }
    ensures { AddsCluesOf labels.now (bound_cond cond.now) clues.old.items clues.new.items }
{
    push_compared(alloc, cond, labels, clues)?;
    push_other(alloc, cond, labels, clues)
}

// The clues of a comparison of values.
fn push_compared<'a>(
    alloc: Global,
    cond: &'a BoundCond,
    labels: &LabelTable,
    clues: &mut Vec<Clue<'a>>,
) -> Result<(), NoMemory>
    requires { rest_leaves (paths_of (bound_cond cond.now)) ≤ LEAVES }
    ensures { AddsCluesOf labels.now (bound_cond cond.now) clues.old.items clues.new.items }
{
    match cond {
        BoundCond::Compare { left, op, right } => {
            push_both(alloc, None, left, *op, right, labels, clues)
        }
        _ => Ok(()),
    }
}

// The clues of two paths that are to reach a same object, and of what is asked of some object that
// a path reaches.
fn push_other<'a>(
    alloc: Global,
    cond: &'a BoundCond,
    labels: &LabelTable,
    clues: &mut Vec<Clue<'a>>,
) -> Result<(), NoMemory>
    requires { rest_leaves (paths_of (bound_cond cond.now)) ≤ LEAVES }
    ensures { AddsCluesOf labels.now (bound_cond cond.now) clues.old.items clues.new.items }
{
    match cond {
        BoundCond::Same { left, right } => push_both_met(alloc, None, left, right, clues),
        BoundCond::Exists { path, body } => push_through(alloc, path, body, labels, clues),
        _ => Ok(()),
    }
}

// The clues of what is asked of some object that the path reaches: of the condition itself, or of
// the members of its topmost `and`.
fn push_through<'a>(
    alloc: Global,
    path: &'a BoundPath,
    body: &'a BoundCond,
    labels: &LabelTable,
    clues: &mut Vec<Clue<'a>>,
) -> Result<(), NoMemory>
    requires path { leaves (path_tree path.now.rest) ≤ LEAVES }
    requires body { rest_leaves (paths_of (bound_cond body.now)) ≤ LEAVES }
    ensures { AddsCluesOf labels.now (exists (bound_path path.now) (bound_cond body.now))
        clues.old.items clues.new.items }
{
    match body {
        BoundCond::And(members) => push_each(alloc, path, members.as_slice(), labels, clues),
        _ => push_sides(alloc, path, body, labels, clues),
    }
}

// The clues of the members of an `and` that is asked of some object that the path reaches.
fn push_each<'a>(
    alloc: Global,
    path: &'a BoundPath,
    members: &'a [BoundCond],
    labels: &LabelTable,
    clues: &mut Vec<Clue<'a>>,
) -> Result<(), NoMemory>
    requires path { leaves (path_tree path.now.rest) ≤ LEAVES }
    requires members { rest_leaves (paths_of_all (conds_from (map bound_cond members.now)))
        ≤ LEAVES }
    ensures { AddsCluesOf labels.now
        (exists (bound_path path.now) (and (conds_from (map bound_cond members.now))))
        clues.old.items clues.new.items }
{
    'members: for member in members {
        push_sides(alloc, path, member, labels, clues)?;
    }
    Ok(())
}
