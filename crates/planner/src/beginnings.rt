ghost use Rattle.std.specs.Prelude.{◌≡◌, ◌↔◌, map, IsTrue, IfSome, IfNone};
ghost use Rattle.lorel_bound.specs.Bound.{range_tree, bound_tree};
ghost use Rattle.lorel_bound.specs.Plans.{FollowOn, IsChain, CanBeBottom, CannotBeBottom};
ghost use Rattle.planner.specs.Types.{Oid as TheOid};
ghost use Rattle.planner.specs.Types.starts;
ghost use Rattle.planner.specs.inside.Probes.{probe_tree};

use crate::probes::{Probe, taken};
use lore_base::Oid;
use lorel_bound::{Bound, Range, Start};

/// What a bottom plan goes between: the values that a comparison asks for, and a named object.
#[derive(Clone, Copy)]
pub(crate) struct Beginning<'b> {
    pub(crate) named: Oid,
    pub(crate) probe: Probe<'b>,
}

/// What a bottom plan of the select goes between; None exactly where it can have none.
pub(crate) fn beginning_of(bound: &Bound) -> Option<Beginning<'_>>
    ensures some { IfSome result (λ beginning.
        CanBeBottom (bound_tree bound.now) beginning.named (probe_tree beginning.probe)) }
    ensures none { IfNone result (CannotBeBottom (bound_tree bound.now)) }
{
    let named = chain_start(bound.ranges.as_slice())?;
    match &bound.cond {
        Some(cond) => Some(Beginning {
            named,
            probe: taken(cond)?,
        }),
        None => None,
    }
}

// The named object that the ranges are a chain from, if they are one.
fn chain_start(ranges: &[Range]) -> Option<Oid>
    ensures some { IfSome result (λ named. IsChain named (map range_tree ranges.now)) }
    ensures none { IfNone result ((named : TheOid)
        → IsChain named (map range_tree ranges.now) → ⊥) }
{
    let (first, others) = ranges.split_first()?;
    match first.start {
        Start::Named(named) if follow_on(others) => Some(named),
        _ => None,
    }
}

// Whether each of the ranges starts at the one before it, and the first at slot 0.
fn follow_on(ranges: &[Range]) -> bool
    ensures { IsTrue result ↔ FollowOn 0 (map range_tree ranges.now) }
{
    'ranges: for (slot, range) in ranges.iter().enumerate() {
        if !starts_at(range.start, slot) {
            return false;
        }
    }
    true
}

// Whether the start is the slot.
fn starts_at(start: Start, slot: usize) -> bool
    ensures { IsTrue result ↔ (start ≡ starts.Slot slot) }
{
    match start {
        Start::Named(_) => false,
        Start::Slot(own) => own as usize == slot,
    }
}
