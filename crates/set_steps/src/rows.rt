ghost use Rattle.std.specs.Prelude.{◌≡◌, ◌<◌, List, AllPairs, Contains, IfSome, IfNone, slice_get};
ghost use Rattle.std.specs.Option.{option_copied};
ghost use Rattle.set_steps.specs.Types.{Oid as TheOid};

use lore_base::Label;
use oem_set::OidSet;

// The step at a place.
fn step_at(row: &[(Label, OidSet)], place: usize) -> Option<&(Label, OidSet)>
    ensures { option_copied result ≡ slice_get row.now place }
{
    row.get(place)
}

/// The set of the step with the label, found by binary search among steps whose labels ascend; None
/// exactly where no step has it. Takes no memory.
pub fn step_by(row: &[(Label, OidSet)], label: Label) -> Option<&OidSet>
    requires { AllPairs (λ a b. a.0.0 < b.0.0) row.now }
    ensures found { IfSome result (λ set. Contains row.now (label, set.now)) }
    ensures none { IfNone result ((set : List TheOid) → ¬ Contains row.now (label, set)) }
{
    let place = row.partition_point(|step| step.0.0 < label.0);
    match step_at(row, place) {
        Some(step) => {
            if step.0.0 == label.0 {
                return Some(&step.1);
            }
            return None;
        }
        None => return None,
    }
}
