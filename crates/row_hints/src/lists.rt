ghost use Rattle.std.specs.Prelude.{◌≡◌, ◌↔◌, ◌<◌, ◌++◌, AllPairs, Contains};
ghost use Rattle.std.specs.Prelude.{IsTrue, IfOk, OnOk};
ghost use Rattle.lore_base.specs.TargetSets.{ListsInOrder};
ghost use Rattle.row_hints.specs.inside.Items.{item_if};

use lore_base::{NoMemory, Oid, OidBuf};
use std::alloc::Global;

// The objects that stand in both lists: those of the shorter one are looked up in the other.
pub(crate) fn common(alloc: Global, left: &OidBuf, right: &OidBuf) -> Result<OidBuf, NoMemory>
    requires left { AllPairs (λ a b. a.0 < b.0) left.now }
    requires right { AllPairs (λ a b. a.0 < b.0) right.now }
    ensures { IfOk result (ListsInOrder
        (λ oid. Contains left.now oid × Contains right.now oid)) }
{
    if left.len() <= right.len() {
        looked_up(alloc, left, right)
    } else {
        looked_up(alloc, right, left)
    }
}

// The objects of a few that stand among many: those that stand in both lists, either first.
fn looked_up(alloc: Global, few: &OidBuf, many: &OidBuf) -> Result<OidBuf, NoMemory>
    requires few { AllPairs (λ a b. a.0 < b.0) few.now }
    requires many { AllPairs (λ a b. a.0 < b.0) many.now }
    ensures own { IfOk result (ListsInOrder
        (λ oid. Contains few.now oid × Contains many.now oid)) }
    ensures turned { IfOk result (ListsInOrder
        (λ oid. Contains many.now oid × Contains few.now oid)) }
{
    those_among(alloc, few.as_slice(), many)
}

// Those of the objects that stand in the list.
fn those_among(alloc: Global, oids: &[Oid], list: &OidBuf) -> Result<OidBuf, NoMemory>
    requires oids { AllPairs (λ a b. a.0 < b.0) oids.now }
    requires list { AllPairs (λ a b. a.0 < b.0) list.now }
    ensures { IfOk result (ListsInOrder
        (λ oid. Contains oids.now oid × Contains list.now oid)) }
{
    let mut kept = OidBuf::new(alloc);
    'oids: for oid in oids {
        push_if(&mut kept, is_among(list, *oid), *oid)?;
    }
    Ok(kept)
}

// Puts the object behind the others where it passes.
fn push_if(kept: &mut OidBuf, passes: bool, oid: Oid) -> Result<(), NoMemory>
    ensures { OnOk result (kept.new ≡ kept.old ++ item_if passes oid) }
{
    if passes {
        kept.push(oid)?;
    }
    Ok(())
}

/// Whether the object is one of these, which ascend: a binary search.
pub fn is_among(oids: &OidBuf, oid: Oid) -> bool
    requires { AllPairs (λ a b. a.0 < b.0) oids.now }
    ensures { IsTrue result ↔ Contains oids.now oid }
{
    match oids.as_slice().binary_search(&oid) {
        Ok(_) => true,
        Err(_) => false,
    }
}
