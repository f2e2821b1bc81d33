ghost use Rattle.std.specs.Prelude.{All, IsTrue};
ghost use Rattle.lorel_bound.specs.Conditions.{operand_paths, paths_of_all};
ghost use Rattle.lorel_eval.specs.inside.Labelled.{in_order};
ghost use Rattle.lorel_eval.specs.inside.Ready.{ready_operand, ready_tree, ready_trees};
ghost use Rattle.lorel_eval.specs.inside.Early.{IsKnown, StartsKnown, ReadsKnown};

use crate::ready_conds::{ReadyCond, ReadyCondList, ReadyOperand, ReadyPath};
use crate::slots::is_marked;
use lore_base::limits::RANGES;
use lorel_bound::BoundStart;

/// Whether the condition reads known slots alone, and the last one among them.
pub(crate) fn is_due(cond: &ReadyCond, known: &[bool; RANGES]) -> bool
    ensures { IsTrue result → ReadsKnown known.now (ready_tree cond.now) }
{
    let Some(last) = last_known(known) else {
        return false;
    };
    if !reads_slot(cond, last) {
        return false;
    }
    reads_known(cond, known)
}

// The last known slot.
fn last_known(known: &[bool; RANGES]) -> Option<u32> {
    let mut last = None;
    'slots: for slot in 0..RANGES {
        if known[slot] {
            last = Some(slot as u32);
        }
    }
    last
}

// Whether the condition reads known slots alone.
#[cycle(known)]
fn reads_known(cond: &ReadyCond, known: &[bool; RANGES]) -> bool
    ensures { IsTrue result → ReadsKnown known.now (ready_tree cond.now) }
{
    match cond {
        ReadyCond::Or(members) => all_read_known(members, known),
        ReadyCond::And(members) => all_read_known(members, known),
        ReadyCond::Not(body) => reads_known(body, known),
        ReadyCond::Exists { path, body } => both_read_known(path, body, known),
        ReadyCond::ForAll { path, body } => both_read_known(path, body, known),
        ReadyCond::Compare { left, op: _, right } => operands_are_known(left, right, known),
        ReadyCond::Same { left, right } => paths_are_known(left, right, known),
    }
}

#[cycle(known)]
fn all_read_known(members: &ReadyCondList, known: &[bool; RANGES]) -> bool
    ensures { IsTrue result
        → All (StartsKnown known.now) (paths_of_all (in_order (ready_trees members.now))) }
{
    'members: for member in members.as_slice() {
        if !reads_known(member, known) {
            return false;
        }
    }
    true
}

// Whether the path of a quantifier and its body read known slots alone.
#[cycle(known)]
fn both_read_known(path: &ReadyPath, body: &ReadyCond, known: &[bool; RANGES]) -> bool
    ensures { IsTrue result
        → IsKnown known.now path.now.start × ReadsKnown known.now (ready_tree body.now) }
{
    if !is_known(path.start, known) {
        return false;
    }
    reads_known(body, known)
}

fn operands_are_known(left: &ReadyOperand, right: &ReadyOperand, known: &[bool; RANGES]) -> bool
    ensures { IsTrue result
        → All (StartsKnown known.now) (operand_paths (ready_operand left.now))
        × All (StartsKnown known.now) (operand_paths (ready_operand right.now)) }
{
    if !operand_is_known(left, known) {
        return false;
    }
    operand_is_known(right, known)
}

fn operand_is_known(operand: &ReadyOperand, known: &[bool; RANGES]) -> bool
    ensures { IsTrue result
        → All (StartsKnown known.now) (operand_paths (ready_operand operand.now)) }
{
    match operand {
        ReadyOperand::Atom(_) => true,
        ReadyOperand::At(path) => is_known(path.start, known),
    }
}

fn paths_are_known(left: &ReadyPath, right: &ReadyPath, known: &[bool; RANGES]) -> bool
    ensures { IsTrue result
        → IsKnown known.now left.now.start × IsKnown known.now right.now.start }
{
    if !is_known(left.start, known) {
        return false;
    }
    is_known(right.start, known)
}

// Whether the start is no slot, or a known one.
fn is_known(start: BoundStart, known: &[bool; RANGES]) -> bool
    ensures { IsTrue result → IsKnown known.now start }
{
    match start {
        BoundStart::Slot(slot) => is_marked(known, slot),
        BoundStart::Named(_) => true,
        BoundStart::Quantified(_) => true,
    }
}

// Whether the condition reads the slot.
#[cycle(reading)]
fn reads_slot(cond: &ReadyCond, slot: u32) -> bool {
    match cond {
        ReadyCond::Or(members) => some_reads_slot(members, slot),
        ReadyCond::And(members) => some_reads_slot(members, slot),
        ReadyCond::Not(body) => reads_slot(body, slot),
        ReadyCond::Exists { path, body } => is_slot(path.start, slot) || reads_slot(body, slot),
        ReadyCond::ForAll { path, body } => is_slot(path.start, slot) || reads_slot(body, slot),
        ReadyCond::Compare { left, op: _, right } => {
            operand_reads_slot(left, slot) || operand_reads_slot(right, slot)
        }
        ReadyCond::Same { left, right } => {
            is_slot(left.start, slot) || is_slot(right.start, slot)
        }
    }
}

#[cycle(reading)]
fn some_reads_slot(members: &ReadyCondList, slot: u32) -> bool {
    'members: for member in members.as_slice() {
        if reads_slot(member, slot) {
            return true;
        }
    }
    false
}

fn operand_reads_slot(operand: &ReadyOperand, slot: u32) -> bool {
    match operand {
        ReadyOperand::Atom(_) => false,
        ReadyOperand::At(path) => is_slot(path.start, slot),
    }
}

fn is_slot(start: BoundStart, slot: u32) -> bool {
    match start {
        BoundStart::Slot(own) => own == slot,
        BoundStart::Named(_) => false,
        BoundStart::Quantified(_) => false,
    }
}
