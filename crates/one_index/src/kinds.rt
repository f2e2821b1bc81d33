ghost use Rattle.std.specs.Prelude.{◌≡◌, ◌<◌, length, replicate, AllPairs, IfOk};
ghost use Rattle.one_index.specs.inside.Kinds.{AreKinds, IsKindSet};

use crate::places::place_of;
use lore_base::{NoMemory, Oid};
use std::alloc::Global;

// Gives the place of the object, if it has one, a kind of its own.
fn set_kind(objects: &[Oid], oid: Oid, kinds: &mut Vec<usize>)
    requires ascend { AllPairs (λ a b. a.0 < b.0) objects.now }
    requires every { length kinds.old.items ≡ length objects.now }
    ensures { IsKindSet objects.now oid kinds.old.items kinds.new.items }
{
    let Some(place) = place_of(objects, oid) else {
        return;
    };
    kinds[place] = place + 1;
}

// So many times the kind of objects without a name.
fn no_kinds(alloc: Global, count: usize) -> Result<Vec<usize>, NoMemory>
    ensures { IfOk result (λ kinds. kinds.items ≡ replicate count 0) }
{
    let kinds = vec![in alloc; 0usize; count]?;
    Ok(kinds)
}

// The kinds of the objects: each of these named ones has one of its own, and all others have one
// together. So only objects with the same names are of one kind, since no name has two objects.
pub(crate) fn kinds_of(
    alloc: Global,
    objects: &[Oid],
    named: &[Oid],
) -> Result<Vec<usize>, NoMemory>
    requires { AllPairs (λ a b. a.0 < b.0) objects.now }
    ensures { IfOk result (λ kinds. AreKinds objects.now named.now kinds.items) }
{
    let mut kinds = no_kinds(alloc, objects.len())?;
    'named: for oid in named {
        set_kind(objects, *oid, &mut kinds);
    }
    Ok(kinds)
}
