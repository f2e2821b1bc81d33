ghost use Rattle.std.specs.Prelude.{◌≡◌, ◌≤◌, [], ◌∷◌, Some, map, IfOk, IfSome, OnOk};
ghost use Rattle.lorel_bound.specs.Bound.{range_tree, bound_cond, bound_conds, conds_from};
ghost use Rattle.lorel_bound.specs.Bound.{bound_tree};
ghost use Rattle.lorel_bound.specs.Conditions.{and};
ghost use Rattle.lorel_bound.specs.Runnable.{IsRunnable};
ghost use Rattle.select_hints.specs.Types.{LEAVES as THE_LEAVES};
ghost use Rattle.select_hints.specs.Hints.{AreHints};
ghost use Rattle.select_hints.specs.inside.Counts.{cond_leaves};
ghost use Rattle.select_hints.specs.inside.Moves.{AreMembers, Extends, IsLonger, IsMovedOf};

use crate::counted::are_few;
use crate::moved::{moved, some_may_move};
use lore_base::{NoMemory, TryCopy};
use lorel_bound::{Bound, BoundCond, BoundCondList, Range};
use std::alloc::Global;

/// So many members at the front, hints among them, are looked at for one.
pub(crate) const MOST: usize = 64;

/// A condition that holds wherever that of the select does: its members, with hints behind them.
/// None where there are none, and where its paths would have more than `LEAVES` leaves with them.
pub fn hints_for(alloc: Global, bound: &Bound) -> Result<Option<BoundCond>, NoMemory>
    requires { IsRunnable (bound_tree bound.now) }
    ensures { IfOk result (λ found. IfSome found (λ hints.
        AreHints (bound_tree bound.now) (bound_cond hints))) }
{
    let Some(cond) = bound.cond.as_ref() else {
        return Ok(None);
    };
    let found = longer(alloc, bound.ranges.as_slice(), cond)?;
    Ok(if_few(found))
}

// The condition, if its paths have at most `LEAVES` leaves.
fn if_few(found: Option<BoundCond>) -> Option<BoundCond>
    ensures own { IfSome result (λ cond. found ≡ Some cond) }
    ensures few { IfSome result (λ cond. cond_leaves (bound_cond cond) ≤ THE_LEAVES) }
{
    let Some(cond) = found else {
        return None;
    };
    if !are_few(&cond) {
        return None;
    }
    Some(cond)
}

// The condition with hints behind its members; None where there are none.
fn longer(alloc: Global, ranges: &[Range], cond: &BoundCond) -> Result<Option<BoundCond>, NoMemory>
    ensures { IfOk result (λ found. IfSome found (λ more.
        IsLonger (map range_tree ranges.now) (bound_cond cond.now) (bound_cond more))) }
{
    if !some_may_move(ranges, cond) {
        return Ok(None);
    }
    let mut members = members_of(alloc, cond)?;
    let count = members.len();
    extend(alloc, ranges, &mut members)?;
    if members.len() == count {
        return Ok(None);
    }
    Ok(Some(all_of(members)))
}

fn all_of(members: BoundCondList) -> BoundCond
    ensures { bound_cond result ≡ and (conds_from (bound_conds members)) }
{
    BoundCond::And(members)
}

// The members of the topmost `and`, or the condition itself.
fn members_of(alloc: Global, cond: &BoundCond) -> Result<BoundCondList, NoMemory>
    ensures { IfOk result (λ list. AreMembers (bound_cond cond.now) (bound_conds list)) }
{
    match cond {
        BoundCond::And(members) => members.try_copy(alloc),
        _ => alone(alloc, cond),
    }
}

// The condition as the one member.
fn alone(alloc: Global, cond: &BoundCond) -> Result<BoundCondList, NoMemory>
    ensures { IfOk result (λ list. bound_conds list ≡ bound_cond cond.now ∷ []) }
{
    let mut list = BoundCondList::new(alloc);
    let copy = cond.try_copy(alloc)?;
    list.push(copy)?;
    Ok(list)
}

// Puts behind the members what they ask of earlier objects, and what that asks of still earlier
// ones.
fn extend(alloc: Global, ranges: &[Range], members: &mut BoundCondList) -> Result<(), NoMemory>
    ensures { OnOk result (Extends (map range_tree ranges.now)
        (bound_conds members.old) (bound_conds members.new)) }
{
    'places: for place in 0..MOST {
        extend_by(alloc, ranges, place, members)?;
    }
    Ok(())
}

// The same of the member at this place, if there is one.
fn extend_by(
    alloc: Global,
    ranges: &[Range],
    place: usize,
    members: &mut BoundCondList,
) -> Result<(), NoMemory>
    ensures { OnOk result (Extends (map range_tree ranges.now)
        (bound_conds members.old) (bound_conds members.new)) }
{
    let Some(more) = moved_at(alloc, ranges, place, members)? else {
        return Ok(());
    };
    members.push(more)?;
    Ok(())
}

// What the member at this place asks of earlier objects.
fn moved_at(
    alloc: Global,
    ranges: &[Range],
    place: usize,
    members: &BoundCondList,
) -> Result<Option<BoundCond>, NoMemory>
    ensures { IfOk result (λ found. IfSome found (λ more. IsMovedOf (map range_tree ranges.now)
        (bound_conds members.now) (bound_cond more))) }
{
    match members.as_slice().get(place) {
        Some(member) => moved(alloc, ranges, member),
        None => Ok(None),
    }
}
