ghost use Rattle.std.specs.Prelude.{◌≡◌, IfOk, OnOk};
ghost use Rattle.lore_base.specs.Databases.{OemGraph, IsRooted};
ghost use Rattle.lore_base.specs.ChangeSets.{FitsGraph, IsOverlay, AreDead};
ghost use Rattle.oem_reach.specs.Reads.{ReadsBelow};

use crate::below::objects_below;
use crate::cuts::parted_objects;
use crate::doubts::{objects_in_doubt, objects_named, unheld_objects, with_fresh};
use crate::lower_parents::are_all_led;
use index_traits::{Adjacent, Links};
use lore_base::{Changes, EdgeBuf, Names, NoMemory, OidBuf, Steps};
use read_costs::entering_edges;
use std::alloc::Global;
use std::sync::ledger::Ledger;

/// The objects that no name walks to once the changes are made, in ascending order; made ones are
/// among them where nothing leads to them.
///
/// `names` are the names of the graph before, each of whose objects is reached from a name, and
/// which the changes fit; `overlay` has the edges once they are made; `lost` are the edges of
/// before that it lacks, and `fresh` those that are new in it. Read are the objects below cuts, each
/// once by the edges that leave it and once by those that enter it, and no other. They are searched
/// from the cuts on, without fresh edges. Of these and the made ones those stay that are named, or
/// that an edge enters from another object, and what such edges lead to from them.
pub fn dead_objects<V: Adjacent + Links, L: Ledger>(
    alloc: Global,
    names: &Names,
    overlay: &V,
    lost: &EdgeBuf,
    fresh: &EdgeBuf,
    changes: &Changes,
    steps: &mut Steps<L>,
) -> Result<OidBuf, NoMemory>
    ensures dead { IfOk result (λ dead. (before : OemGraph) → IsRooted before
        → before.names ≡ names.now → FitsGraph before changes.now
        → IsOverlay before.edges changes.now (V.Adjacent.edges overlay.now) lost.now fresh.now
        → V.Links.edges overlay.now ≡ V.Adjacent.edges overlay.now
        → AreDead before changes.now dead) }
    ensures reads { let between = V.Adjacent.edges overlay.now in
        OnOk result ((before : OemGraph) → IsRooted before
        → before.names ≡ names.now → FitsGraph before changes.now
        → IsOverlay before.edges changes.now between lost.now fresh.now
        → V.Links.edges overlay.now ≡ between
        → ReadsBelow before changes.now between steps.old steps.new) }
{
    let parted = parted_objects(names, lost, changes)?;
    if parted.is_empty() {
        let led = are_all_led(alloc, fresh, changes)?;
        if led {
            return Ok(OidBuf::new(alloc));
        }
    }
    let below = objects_below(alloc, overlay, fresh, parted.as_slice(), steps)?;
    let entering = entering_edges(alloc, overlay, below.as_slice(), steps)?;
    let doubts = objects_in_doubt(below, &changes.made)?;
    let named = objects_named(names, changes)?;
    let edges = with_fresh(entering, fresh.as_slice(), doubts.as_slice())?;
    unheld_objects(alloc, doubts.as_slice(), named.as_slice(), edges.as_slice())
}
