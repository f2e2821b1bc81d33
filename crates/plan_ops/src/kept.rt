ghost use Rattle.std.specs.Prelude.{◌≡◌, length, All, IsTrue, IfOk, OnOk};
ghost use Rattle.lore_base.specs.TargetSets.{ListsInOrder};
ghost use Rattle.plan_ops.specs.inside.Keeping.{IsKept, IsNothing};
ghost use Rattle.plan_ops.specs.inside.Offers.{PutsAll, PutsThose};

use crate::offers::Offer;
use crate::walks::Walks;
use lore_base::{NoMemory, Oid, OidBuf, Steps};
use std::alloc::Global;
use std::sync::ledger::Ledger;
use word_walks::Reached;

/// Where a step began the last time that it was taken, and what it reached from there, with lists
/// whose room the next walk uses.
#[derive(Drop)]
pub(crate) struct Kept {
    from: Oid,
    reached: Reached,
    // The objects are those that were reached: they weren't given out since.
    is_whole: bool,
}

/// For each of so many steps that it wasn't taken yet.
pub(crate) fn none_kept(alloc: Global, count: usize) -> Result<Vec<Kept>, NoMemory>
    ensures long { IfOk result (λ list. length list.items ≡ count) }
    ensures none { IfOk result (λ list. All IsNothing list.items) }
{
    let mut list = Vec::with_capacity(alloc, count)?;
    'steps: while list.len() < count {
        list.push(nothing(alloc))?;
    }
    Ok(list)
}

// No object was reached.
fn nothing(alloc: Global) -> Kept
    ensures { IsNothing result }
{
    Kept {
        from: Oid(0),
        reached: Reached::new(alloc),
        is_whole: false,
    }
}

/// Puts the objects into the slot to which the way leads from this one. The second time in a row
/// that the step begins there it keeps what it reaches, and takes that from then on.
pub(crate) fn walked<'r, W: Walks, L: Ledger>(
    alloc: Global,
    walk: &W,
    from: Oid,
    slot: u32,
    kept: &mut Kept,
    steps: &mut Steps<L>,
) -> Result<Offer<'r>, NoMemory>
    requires { IsKept (W.leads walk.now) kept.old }
    ensures kept { IsKept (W.leads walk.now) kept.new }
    ensures objects { IfOk result (PutsThose (W.leads walk.now from) slot) }
{
    if has_all(kept, from) {
        return put_copy(alloc, kept.reached.as_slice(), slot);
    }
    let again = began_at(kept, from);
    walk_anew(alloc, walk, from, kept, steps)?;
    put_reached(alloc, again, slot, kept)
}

// Whether what the step reached from this object is at hand.
fn has_all(kept: &Kept, from: Oid) -> bool
    ensures from { IsTrue result → kept.now.from.0 ≡ from.0 }
    ensures whole { IsTrue result → IsTrue kept.now.is_whole }
{
    if kept.from.0 == from.0 {
        return kept.is_whole;
    }
    false
}

// Whether the step began at this object.
fn began_at(kept: &Kept, from: Oid) -> bool {
    kept.from.0 == from.0
}

// Walks from the object.
fn walk_anew<W: Walks, L: Ledger>(
    alloc: Global,
    walk: &W,
    from: Oid,
    kept: &mut Kept,
    steps: &mut Steps<L>,
) -> Result<(), NoMemory>
    ensures kept { IsKept (W.leads walk.now) kept.new }
    ensures objects { OnOk result (ListsInOrder (W.leads walk.now from) kept.new.reached) }
{
    kept.from = from;
    kept.is_whole = false;
    walk.walk(alloc, from, &mut kept.reached, steps)?;
    kept.is_whole = true;
    Ok(())
}

// Puts the objects that were reached into the slot. They are given out where the step began
// elsewhere before, since most steps begin at another object each time, and else a copy of them.
fn put_reached<'r>(
    alloc: Global,
    again: bool,
    slot: u32,
    kept: &mut Kept,
) -> Result<Offer<'r>, NoMemory>
    ensures puts { IfOk result (PutsAll slot kept.old.reached) }
    ensures kept { IsTrue kept.new.is_whole → kept.new ≡ kept.old }
{
    if again {
        return put_copy(alloc, kept.reached.as_slice(), slot);
    }
    Ok(give_all(kept, slot))
}

// Puts the objects that were reached into the slot. A list of them is given out, and a single one
// takes none.
fn give_all<'r>(kept: &mut Kept, slot: u32) -> Offer<'r>
    ensures puts { PutsAll slot kept.old.reached result }
    ensures kept { IsTrue kept.new.is_whole → kept.new ≡ kept.old }
{
    match kept.reached.as_slice() {
        [] => Offer::Reject,
        [oid] => Offer::One { slot, oid: *oid },
        _ => {
            kept.is_whole = false;
            Offer::Fill {
                slot,
                oids: kept.reached.take(),
            }
        }
    }
}

// Puts the objects into the slot, in a list of their own. A single one takes none.
fn put_copy<'r>(alloc: Global, oids: &[Oid], slot: u32) -> Result<Offer<'r>, NoMemory>
    ensures { IfOk result (PutsAll slot oids.now) }
{
    match oids {
        [] => Ok(Offer::Reject),
        [oid] => Ok(Offer::One { slot, oid: *oid }),
        _ => {
            let oids = copied(alloc, oids)?;
            Ok(Offer::Fill { slot, oids })
        }
    }
}

// A list of these.
fn copied(alloc: Global, oids: &[Oid]) -> Result<OidBuf, NoMemory>
    ensures { IfOk result (λ list. list ≡ oids.now) }
{
    let mut list = OidBuf::new(alloc);
    list.append(oids)?;
    Ok(list)
}
