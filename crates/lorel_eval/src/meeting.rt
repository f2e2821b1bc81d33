ghost use Rattle.std.specs.Prelude.{◌↔◌, ◌<◌, AllPairs, Contains, IsTrue, IfOk};
ghost use Rattle.lorel_bound.specs.Conditions.{same};
ghost use Rattle.lorel_eval.specs.Types.{Oid as TheOid};
ghost use Rattle.lorel_eval.specs.inside.Ready.{ready_path};
ghost use Rattle.lorel_eval.specs.inside.Subjects.{HoldsIn};

use crate::ready_conds::ReadyPath;
use crate::subject::Subject;
use index_traits::{Adjacent, ValueOf};
use lore_base::{NoMemory, Oid, Steps};
use std::alloc::Global;
use std::sync::ledger::Ledger;

// Whether some object is reached by both paths.
pub(crate) fn paths_meet<A: Adjacent, G: ValueOf, L: Ledger>(
    alloc: Global,
    subject: &Subject<A, G>,
    objects: &[Oid],
    left: &ReadyPath,
    right: &ReadyPath,
    steps: &mut Steps<L>,
) -> Result<bool, NoMemory>
    ensures { IfOk result (λ answer. IsTrue answer ↔ HoldsIn subject.now objects.now
        (same (ready_path left.now) (ready_path right.now))) }
{
    let left = subject.reached(alloc, objects, left, steps)?;
    let right = subject.reached(alloc, objects, right, steps)?;
    Ok(have_common(left.as_slice(), right.as_slice()))
}

// Whether some object stands in both lists, which ascend.
fn have_common(left: &[Oid], right: &[Oid]) -> bool
    requires left { AllPairs (λ a b. a.0 < b.0) left.now }
    requires right { AllPairs (λ a b. a.0 < b.0) right.now }
    ensures { IsTrue result ↔ ((oid : TheOid) × Contains left.now oid × Contains right.now oid) }
{
    let mut i = 0;
    let mut j = 0;
    'places: while i < left.len() && j < right.len() {
        if left[i].0 == right[j].0 {
            return true;
        }
        if left[i].0 < right[j].0 {
            i += 1;
        } else {
            j += 1;
        }
    }
    false
}
