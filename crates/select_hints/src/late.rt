use crate::hints::MOST;
use crate::moved::{later_slot, moves_over_slots};
use lorel_bound::{Bound, BoundCond, Range};

/// The first slot from which a side of a member was moved over other slots: from there on hints
/// aren't asked whether a row is ruled out, since they would walk again what was asked before. 0
/// where no side was. No promise rests on it.
pub fn late_from(bound: &Bound, hints: &BoundCond) -> u32 {
    let ranges = bound.ranges.as_slice();
    match hints {
        BoundCond::And(members) => first_late(ranges, members.as_slice()).unwrap_or(0),
        _ => 0,
    }
}

// The same; None where no side was. Members behind the first `MOST` are not moved.
fn first_late(ranges: &[Range], members: &[BoundCond]) -> Option<u32> {
    let mut first = None;
    'places: for place in 0..MOST {
        if let Some(member) = members.get(place) {
            first = earlier(first, late_of(ranges, member));
        }
    }
    first
}

// The slot of the later side, where that is moved over other slots, or would be if its range took
// no long walk.
fn late_of(ranges: &[Range], member: &BoundCond) -> Option<u32> {
    let slot = later_slot(member)?;
    if !moves_over_slots(ranges, slot) {
        return None;
    }
    Some(slot)
}

// The smaller one, if there is one.
fn earlier(first: Option<u32>, second: Option<u32>) -> Option<u32> {
    match (first, second) {
        (Some(first), Some(second)) => Some(first.min(second)),
        (Some(first), None) => Some(first),
        (None, second) => second,
    }
}
