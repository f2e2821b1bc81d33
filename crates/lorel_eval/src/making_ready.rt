ghost use Rattle.std.specs.Prelude.{◌≡◌, ◌≤◌, map, IfOk};
ghost use Rattle.lore_base.specs.Paths.{path_tree, leaves};
ghost use Rattle.lorel_bound.specs.Bound.{bound_path, bound_operand, bound_cond, bound_conds};
ghost use Rattle.lorel_bound.specs.Bound.{conds_from};
ghost use Rattle.lorel_bound.specs.Conditions.{operand_paths, paths_of, paths_of_all};
ghost use Rattle.lorel_bound.specs.Conditions as c;
ghost use Rattle.lorel_eval.specs.Types.{LEAVES};
ghost use Rattle.lorel_eval.specs.Tests.{rest_leaves};
ghost use Rattle.lorel_eval.specs.inside.Labelled.{labelled_path, labelled_operand, labelled};
ghost use Rattle.lorel_eval.specs.inside.Ready.{ready_path, ready_operand};
ghost use Rattle.lorel_eval.specs.inside.Ready.{ready_tree, ready_trees};

use crate::ready_conds::{ReadyCond, ReadyCondList, ReadyOperand, ReadyPath};
use crate::ready_routes::ReadyRoute;
use lore_base::{NoMemory, Op};
use lorel_bound::{BoundCond, BoundCondList, BoundOperand, BoundPath};
use oem_labels::LabelTable;
use std::alloc::Global;

/// The condition with its paths made ready. Their rests have at most 64 leaves together.
#[cycle(make)]
pub(crate) fn ready_cond<'a>(
    alloc: Global,
    labels: &'a LabelTable,
    cond: &'a BoundCond,
) -> Result<ReadyCond<'a>, NoMemory>
    requires { rest_leaves (paths_of (bound_cond cond.now)) ≤ LEAVES }
    ensures { IfOk result (λ ready. ready_tree ready
        ≡ labelled labels.now (bound_cond cond.now)) }
{
    match cond {
        BoundCond::Or(members) => Ok(ReadyCond::Or(ready_conds(alloc, labels, members)?)),
        BoundCond::And(members) => Ok(ReadyCond::And(ready_conds(alloc, labels, members)?)),
        BoundCond::Not(body) => Ok(ReadyCond::Not(Box::new(
            alloc,
            ready_cond(alloc, labels, body)?,
        )?)),
        BoundCond::Exists { path, body } => {
            let path = ready_path(alloc, labels, path)?;
            let body = Box::new(alloc, ready_cond(alloc, labels, body)?)?;
            Ok(ReadyCond::Exists { path, body })
        }
        BoundCond::ForAll { path, body } => {
            let path = ready_path(alloc, labels, path)?;
            let body = Box::new(alloc, ready_cond(alloc, labels, body)?)?;
            Ok(ReadyCond::ForAll { path, body })
        }
        BoundCond::Compare { left, op, right } => ready_comparison(alloc, labels, left, *op, right),
        BoundCond::Same { left, right } => ready_sameness(alloc, labels, left, right),
    }
}

// The conditions with their paths made ready.
#[cycle(make)]
fn ready_conds<'a>(
    alloc: Global,
    labels: &'a LabelTable,
    members: &'a BoundCondList,
) -> Result<ReadyCondList<'a>, NoMemory>
    requires { rest_leaves (paths_of_all (conds_from (bound_conds members.now))) ≤ LEAVES }
    ensures { IfOk result (λ ready. ready_trees ready
        ≡ map (labelled labels.now) (bound_conds members.now)) }
{
    let mut ready = ReadyCondList::new(alloc);
    'members: for member in members.as_slice() {
        ready.push(ready_cond(alloc, labels, member)?)?;
    }
    Ok(ready)
}

fn ready_comparison<'a>(
    alloc: Global,
    labels: &'a LabelTable,
    left: &'a BoundOperand,
    op: Op,
    right: &'a BoundOperand,
) -> Result<ReadyCond<'a>, NoMemory>
    requires left { rest_leaves (operand_paths (bound_operand left.now)) ≤ LEAVES }
    requires right { rest_leaves (operand_paths (bound_operand right.now)) ≤ LEAVES }
    ensures { IfOk result (λ ready. ready_tree ready
        ≡ labelled labels.now (c.compare (bound_operand left.now) op (bound_operand right.now))) }
{
    let left = ready_operand(alloc, labels, left)?;
    let right = ready_operand(alloc, labels, right)?;
    Ok(ReadyCond::Compare { left, op, right })
}

fn ready_sameness<'a>(
    alloc: Global,
    labels: &'a LabelTable,
    left: &'a BoundPath,
    right: &'a BoundPath,
) -> Result<ReadyCond<'a>, NoMemory>
    requires left { leaves (path_tree left.now.rest) ≤ LEAVES }
    requires right { leaves (path_tree right.now.rest) ≤ LEAVES }
    ensures { IfOk result (λ ready. ready_tree ready
        ≡ labelled labels.now (c.same (bound_path left.now) (bound_path right.now))) }
{
    let left = ready_path(alloc, labels, left)?;
    let right = ready_path(alloc, labels, right)?;
    Ok(ReadyCond::Same { left, right })
}

fn ready_operand<'a>(
    alloc: Global,
    labels: &'a LabelTable,
    operand: &'a BoundOperand,
) -> Result<ReadyOperand<'a>, NoMemory>
    requires { rest_leaves (operand_paths (bound_operand operand.now)) ≤ LEAVES }
    ensures { IfOk result (λ ready. ready_operand ready
        ≡ labelled_operand labels.now (bound_operand operand.now)) }
{
    match operand {
        BoundOperand::Atom(value) => Ok(ReadyOperand::Atom(value)),
        BoundOperand::At(path) => Ok(ReadyOperand::At(ready_path(alloc, labels, path)?)),
    }
}

fn ready_path<'a>(
    alloc: Global,
    labels: &'a LabelTable,
    path: &'a BoundPath,
) -> Result<ReadyPath<'a>, NoMemory>
    requires { leaves (path_tree path.now.rest) ≤ LEAVES }
    ensures { IfOk result (λ ready. ready_path ready
        ≡ labelled_path labels.now (bound_path path.now)) }
{
    Ok(ReadyPath {
        start: path.start,
        route: ReadyRoute::new(alloc, labels, &path.rest)?,
    })
}
