ghost use Rattle.std.specs.Prelude.{◌≡◌, ◌<◌, map, IfOk, IfSome};
ghost use Rattle.lore_base.specs.Paths.{path_tree};
ghost use Rattle.lorel_bound.specs.Bound.{range_tree, bound_cond, bound_operand, bound_path};
ghost use Rattle.lorel_bound.specs.Conditions.{at, compare, same};
ghost use Rattle.select_hints.specs.Types.starts;
ghost use Rattle.select_hints.specs.inside.Moves.{IsMoved, IsMovedOperand, IsMovedPath, behind};

use crate::joined::{is_short, joined};
use lore_base::{NoMemory, Op, Path, TryCopy};
use lorel_bound::{BoundCond, BoundOperand, BoundPath, BoundStart, Range, Start};
use std::alloc::Global;

/// The comparison asked of an earlier object: of its two sides the one that starts at the later
/// slot is put behind the path of the slot's range. None where that range starts at a name, where
/// it takes long walks, and where both sides start together.
pub(crate) fn moved(
    alloc: Global,
    ranges: &[Range],
    cond: &BoundCond,
) -> Result<Option<BoundCond>, NoMemory>
    ensures { IfOk result (λ found. IfSome found (λ more.
        IsMoved (map range_tree ranges.now) (bound_cond cond.now) (bound_cond more))) }
{
    match cond {
        BoundCond::Compare { left, op, right } => {
            moved_compared(alloc, ranges, left, *op, right)
        }
        BoundCond::Same { left, right } => moved_met(alloc, ranges, left, right),
        _ => Ok(None),
    }
}

/// Whether that is asked for some member of the topmost `and`, or for the condition itself. No
/// promise rests on it.
pub(crate) fn some_may_move(ranges: &[Range], cond: &BoundCond) -> bool {
    match cond {
        BoundCond::And(members) => some_member_may_move(ranges, members.as_slice()),
        _ => may_move(ranges, cond),
    }
}

fn some_member_may_move(ranges: &[Range], members: &[BoundCond]) -> bool {
    'members: for member in members {
        if may_move(ranges, member) {
            return true;
        }
    }
    false
}

fn may_move(ranges: &[Range], cond: &BoundCond) -> bool {
    match later_slot(cond) {
        Some(slot) => starts_behind(ranges, slot),
        None => false,
    }
}

/// The slot of the side of a comparison that comes later; None where both are there from the start.
pub(crate) fn later_slot(cond: &BoundCond) -> Option<u32> {
    match cond {
        BoundCond::Compare { left, right, .. } => later(slot_of(left), slot_of(right)),
        BoundCond::Same { left, right } => later(slot_at(left.start), slot_at(right.start)),
        _ => None,
    }
}

// The later one, if there is one.
fn later(first: Option<u32>, second: Option<u32>) -> Option<u32> {
    match (first, second) {
        (Some(first), Some(second)) => Some(first.max(second)),
        (Some(first), None) => Some(first),
        (None, second) => second,
    }
}

/// Whether slots lie between this one and the one that its range starts at. No promise rests on it.
pub(crate) fn moves_over_slots(ranges: &[Range], slot: u32) -> bool {
    match start_behind(ranges, slot) {
        Some(earlier) => slot.saturating_sub(earlier) > 1,
        None => false,
    }
}

// Whether the range of the slot starts at another slot.
fn starts_behind(ranges: &[Range], slot: u32) -> bool {
    start_behind(ranges, slot).is_some()
}

// The slot that the range of this one starts at, if it is one.
fn start_behind(ranges: &[Range], slot: u32) -> Option<u32> {
    match ranges.get(slot as usize) {
        Some(range) => slot_before(range.start),
        None => None,
    }
}

// The slot that a range starts at, if it is one.
fn slot_before(start: Start) -> Option<u32> {
    match start {
        Start::Slot(slot) => Some(slot),
        _ => None,
    }
}

// The slot that an operand starts at, if it is one.
fn slot_of(operand: &BoundOperand) -> Option<u32> {
    match operand {
        BoundOperand::Atom(_) => None,
        BoundOperand::At(path) => slot_at(path.start),
    }
}

// The slot that a path starts at, if it is one.
fn slot_at(start: BoundStart) -> Option<u32> {
    match start {
        BoundStart::Slot(slot) => Some(slot),
        _ => None,
    }
}

// Whether the first side comes behind the second one.
fn is_later(first: Option<u32>, second: Option<u32>) -> bool {
    match (first, second) {
        (Some(first), Some(second)) => second < first,
        (Some(_), None) => true,
        (None, _) => false,
    }
}

// `moved` of a comparison by an operator.
fn moved_compared(
    alloc: Global,
    ranges: &[Range],
    left: &BoundOperand,
    op: Op,
    right: &BoundOperand,
) -> Result<Option<BoundCond>, NoMemory>
    ensures { IfOk result (λ found. IfSome found (λ more. IsMoved (map range_tree ranges.now)
        (compare (bound_operand left.now) op (bound_operand right.now)) (bound_cond more))) }
{
    let (first, second) = (slot_of(left), slot_of(right));
    if is_later(first, second) {
        return moved_left(alloc, ranges, left, op, right);
    }
    if is_later(second, first) {
        return moved_right(alloc, ranges, left, op, right);
    }
    Ok(None)
}

fn moved_left(
    alloc: Global,
    ranges: &[Range],
    left: &BoundOperand,
    op: Op,
    right: &BoundOperand,
) -> Result<Option<BoundCond>, NoMemory>
    ensures { IfOk result (λ found. IfSome found (λ more. IsMoved (map range_tree ranges.now)
        (compare (bound_operand left.now) op (bound_operand right.now)) (bound_cond more))) }
{
    let Some(more) = moved_operand(alloc, ranges, left)? else {
        return Ok(None);
    };
    let copy = right.try_copy(alloc)?;
    Ok(Some(comparison(more, op, copy)))
}

fn moved_right(
    alloc: Global,
    ranges: &[Range],
    left: &BoundOperand,
    op: Op,
    right: &BoundOperand,
) -> Result<Option<BoundCond>, NoMemory>
    ensures { IfOk result (λ found. IfSome found (λ more. IsMoved (map range_tree ranges.now)
        (compare (bound_operand left.now) op (bound_operand right.now)) (bound_cond more))) }
{
    let Some(more) = moved_operand(alloc, ranges, right)? else {
        return Ok(None);
    };
    let copy = left.try_copy(alloc)?;
    Ok(Some(comparison(copy, op, more)))
}

fn comparison(left: BoundOperand, op: Op, right: BoundOperand) -> BoundCond
    ensures { bound_cond result ≡ compare (bound_operand left) op (bound_operand right) }
{
    BoundCond::Compare { left, op, right }
}

// `moved` of an `==`.
fn moved_met(
    alloc: Global,
    ranges: &[Range],
    left: &BoundPath,
    right: &BoundPath,
) -> Result<Option<BoundCond>, NoMemory>
    ensures { IfOk result (λ found. IfSome found (λ more. IsMoved (map range_tree ranges.now)
        (same (bound_path left.now) (bound_path right.now)) (bound_cond more))) }
{
    let (first, second) = (slot_at(left.start), slot_at(right.start));
    if is_later(first, second) {
        return moved_left_met(alloc, ranges, left, right);
    }
    if is_later(second, first) {
        return moved_right_met(alloc, ranges, left, right);
    }
    Ok(None)
}

fn moved_left_met(
    alloc: Global,
    ranges: &[Range],
    left: &BoundPath,
    right: &BoundPath,
) -> Result<Option<BoundCond>, NoMemory>
    ensures { IfOk result (λ found. IfSome found (λ more. IsMoved (map range_tree ranges.now)
        (same (bound_path left.now) (bound_path right.now)) (bound_cond more))) }
{
    let Some(more) = moved_path(alloc, ranges, left)? else {
        return Ok(None);
    };
    let copy = right.try_copy(alloc)?;
    Ok(Some(meeting(more, copy)))
}

fn moved_right_met(
    alloc: Global,
    ranges: &[Range],
    left: &BoundPath,
    right: &BoundPath,
) -> Result<Option<BoundCond>, NoMemory>
    ensures { IfOk result (λ found. IfSome found (λ more. IsMoved (map range_tree ranges.now)
        (same (bound_path left.now) (bound_path right.now)) (bound_cond more))) }
{
    let Some(more) = moved_path(alloc, ranges, right)? else {
        return Ok(None);
    };
    let copy = left.try_copy(alloc)?;
    Ok(Some(meeting(copy, more)))
}

fn meeting(left: BoundPath, right: BoundPath) -> BoundCond
    ensures { bound_cond result ≡ same (bound_path left) (bound_path right) }
{
    BoundCond::Same { left, right }
}

fn moved_operand(
    alloc: Global,
    ranges: &[Range],
    operand: &BoundOperand,
) -> Result<Option<BoundOperand>, NoMemory>
    ensures { IfOk result (λ found. IfSome found (λ more. IsMovedOperand
        (map range_tree ranges.now) (bound_operand operand.now) (bound_operand more))) }
{
    match operand {
        BoundOperand::At(path) => moved_side(alloc, ranges, path),
        BoundOperand::Atom(_) => Ok(None),
    }
}

fn moved_side(
    alloc: Global,
    ranges: &[Range],
    path: &BoundPath,
) -> Result<Option<BoundOperand>, NoMemory>
    ensures { IfOk result (λ found. IfSome found (λ more. IsMovedOperand
        (map range_tree ranges.now) (at (bound_path path.now)) (bound_operand more))) }
{
    let Some(more) = moved_path(alloc, ranges, path)? else {
        return Ok(None);
    };
    Ok(Some(BoundOperand::At(more)))
}

// The path from where the range of its slot starts.
fn moved_path(
    alloc: Global,
    ranges: &[Range],
    path: &BoundPath,
) -> Result<Option<BoundPath>, NoMemory>
    ensures { IfOk result (λ found. IfSome found (λ more. IsMovedPath (map range_tree ranges.now)
        (bound_path path.now) (bound_path more))) }
{
    match path.start {
        BoundStart::Slot(slot) => moved_from(alloc, ranges, slot, &path.rest),
        _ => Ok(None),
    }
}

// The same of what is behind the slot.
fn moved_from(
    alloc: Global,
    ranges: &[Range],
    slot: u32,
    rest: &Path,
) -> Result<Option<BoundPath>, NoMemory>
    ensures { let own = behind slot (path_tree rest.now) in
        IfOk result (λ found. IfSome found (λ more.
        IsMovedPath (map range_tree ranges.now) own (bound_path more))) }
{
    let Some(range) = ranges.get(slot as usize) else {
        return Ok(None);
    };
    let Some(earlier) = earlier_slot(range.start, slot) else {
        return Ok(None);
    };
    if !is_short(&range.path) {
        return Ok(None);
    }
    let whole = joined(alloc, &range.path, rest)?;
    Ok(Some(BoundPath {
        start: BoundStart::Slot(earlier),
        rest: whole,
    }))
}

// The slot that a range starts at, if that is one before the other.
fn earlier_slot(start: Start, slot: u32) -> Option<u32>
    ensures starts { IfSome result (λ earlier. start ≡ starts.Slot earlier) }
    ensures before { IfSome result (λ earlier. earlier < slot) }
{
    let Start::Slot(earlier) = start else {
        return None;
    };
    if slot <= earlier {
        return None;
    }
    Some(earlier)
}
