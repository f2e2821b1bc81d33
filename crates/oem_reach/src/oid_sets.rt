ghost use Rattle.std.specs.Prelude.{◌≡◌, ◌<◌, not, filter, AllPairs, IfOk};
ghost use Rattle.oem_reach.specs.inside.Doubts.{is_listed};

use lore_base::{NoMemory, Oid, OidBuf};
use std::alloc::Global;

// Whether the object is one of the ascending ones, found by binary search.
pub(crate) fn is_among(oids: &[Oid], oid: Oid) -> bool
    requires { AllPairs (λ a b. a.0 < b.0) oids.now }
    ensures { result ≡ is_listed oids.now oid }
{
    match oids.binary_search(&oid) {
        Ok(_) => true,
        Err(_) => false,
    }
}

// The objects that aren't among the others, which ascend, in the same order.
pub(crate) fn without(alloc: Global, oids: &[Oid], others: &[Oid]) -> Result<OidBuf, NoMemory>
    requires { AllPairs (λ a b. a.0 < b.0) others.now }
    ensures { IfOk result (λ left.
        left ≡ filter (λ oid. not (is_listed others.now oid)) oids.now) }
{
    let mut left = OidBuf::new(alloc);
    'oids: for oid in oids {
        if !is_among(others, *oid) {
            left.push(*oid)?;
        }
    }
    Ok(left)
}
