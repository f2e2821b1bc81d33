ghost use Rattle.std.specs.Prelude.{◌≡◌, ◌≤◌, ◌<◌, ◌≢◌, length, map, AllPairs, IfOk};
ghost use Rattle.std.specs.List.{AllWithin, HoldsAt};
ghost use Rattle.set_steps.specs.inside.Arcs.{AscendAsArcs, AreGroups};

use lore_base::{Label, NoMemory, Oid, OidBuf};
use oem_set::OidSet;
use std::alloc::Global;

// How many of the arcs have the label before the first one that hasn't.
fn group_length(arcs: &[(Label, Oid)], label: Label) -> usize
    ensures inside { result ≤ length arcs.now }
    ensures group { AllWithin (λ arc. arc.0.0 ≡ label.0) arcs.now 0 result }
    ensures end { result < length arcs.now → HoldsAt (λ arc. arc.0.0 ≢ label.0) arcs.now result }
{
    'arcs: for (place, arc) in arcs.iter().enumerate() {
        if arc.0.0 != label.0 {
            return place;
        }
    }
    arcs.len()
}

// The set of the children of arcs, which ascend.
fn children(alloc: Global, arcs: &[(Label, Oid)]) -> Result<OidSet, NoMemory>
    requires { AllPairs (λ a b. a.1.0 < b.1.0) arcs.now }
    ensures { IfOk result (λ set. set ≡ map (λ arc. arc.1) arcs.now) }
{
    let mut oids = OidBuf::with_capacity(alloc, arcs.len())?;
    'arcs: for arc in arcs {
        oids.push(arc.1)?;
    }
    Ok(OidSet::from_ascending(oids))
}

// The sets that the arcs lead to, label by label.
pub(crate) fn group_arcs(
    alloc: Global,
    arcs: &[(Label, Oid)],
) -> Result<Vec<(Label, OidSet)>, NoMemory>
    requires { AscendAsArcs arcs.now }
    ensures { IfOk result (λ groups. AreGroups arcs.now groups.items) }
{
    let mut groups = Vec::new(alloc);
    let mut rest = arcs;
    'groups: while let Some(first) = rest.first() {
        let label = first.0;
        let (group, others) = rest.split_at(group_length(rest, label));
        let set = children(alloc, group)?;
        groups.push((label, set))?;
        rest = others;
    }
    Ok(groups)
}
