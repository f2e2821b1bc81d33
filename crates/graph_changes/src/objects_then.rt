ghost use Rattle.std.specs.Prelude.{◌≡◌, ◌≢◌, ◌++◌, AllPairs, IfOk, OnOk};
ghost use Rattle.graph_changes.specs.Left.{AreAscendingOids, AreOrdered, ListsGiven, not_dead};

use crate::dead_oids::is_dead;
use lore_base::{Changes, NoMemory, ObjectList, Oid, TryCopy, Value};
use std::alloc::Global;

// A copy of the objects, in the same order.
fn copied_objects(alloc: Global, objects: &ObjectList) -> Result<Vec<(Oid, Value)>, NoMemory>
    ensures { IfOk result (λ copy. copy.items ≡ objects.now) }
{
    let mut copy = Vec::with_capacity(alloc, objects.len())?;
    match push_copies(alloc, objects.as_slice(), &mut copy) {
        Ok(()) => Ok(copy),
        Err(error) => {
            drop(copy);
            Err(error)
        }
    }
}

// Puts copies of the objects behind those that are there.
fn push_copies(
    alloc: Global,
    objects: &[(Oid, Value)],
    copy: &mut Vec<(Oid, Value)>,
) -> Result<(), NoMemory>
    ensures { OnOk result (copy.new.items ≡ copy.old.items ++ objects.now) }
{
    'objects: for object in objects {
        copy.push(object.try_copy(alloc)?)?;
    }
    Ok(())
}

// The given values by ascending objects.
fn ordered_values(alloc: Global, given: &ObjectList) -> Result<Vec<(Oid, Value)>, NoMemory>
    requires { AllPairs (λ a b. a.0 ≢ b.0) given.now }
    ensures { IfOk result (λ values. AreOrdered given.now values.items) }
{
    let mut values = copied_objects(alloc, given)?;
    values.sort_unstable_by_key(|object| object.0.0);
    Ok(values)
}

// Puts those of the objects behind `left` that aren't dead.
fn push_living(
    alloc: Global,
    left: &mut ObjectList,
    objects: &[(Oid, Value)],
    dead: &[Oid],
) -> Result<(), NoMemory>
    requires { AreAscendingOids dead.now }
    ensures { OnOk result (left.new ≡ left.old ++ not_dead dead.now objects.now) }
{
    'objects: for object in objects {
        if !is_dead(dead, object.0) {
            left.push(object.try_copy(alloc)?)?;
        }
    }
    Ok(())
}

/// The values that are given to objects, by ascending objects, and behind them the made objects; of
/// both those that don't die. An error only where memory is refused.
pub fn objects_given(alloc: Global, changes: &Changes, dead: &[Oid]) -> Result<ObjectList, NoMemory>
    requires once { AllPairs (λ a b. a.0 ≢ b.0) changes.now.values }
    requires dead { AreAscendingOids dead.now }
    ensures { IfOk result (ListsGiven changes.now dead.now) }
{
    let values = ordered_values(alloc, &changes.values)?;
    let room = values.len().saturating_add(changes.made.len());
    let mut given = ObjectList::with_capacity(alloc, room)?;
    push_living(alloc, &mut given, values.as_slice(), dead)?;
    push_living(alloc, &mut given, changes.made.as_slice(), dead)?;
    Ok(given)
}
