ghost use Rattle.std.specs.Prelude.{◌≡◌, [], OnOk, OnErr};
ghost use Rattle.edge_lists.specs.Objects.{AreAscendingObjects};
ghost use Rattle.edge_lists.specs.Chains.{AreChained};
ghost use Rattle.lore_base.specs.Lists.{Extends};
ghost use Rattle.edge_lists.specs.Runs.{ListsRun};

use crate::objects::{ObjectRecord, head};
use crate::records::EdgeRecord;
use crate::sides::{Side, Way};
use lore_base::{EdgeBuf, NoMemory, Oid};
use slab::Slab;

/// Puts the edges of the object's list behind `found`, in its order.
pub fn push_list(
    objects: &[ObjectRecord],
    records: &Slab<EdgeRecord>,
    side: Side,
    owner: Oid,
    found: &mut EdgeBuf,
) -> Result<(), NoMemory>
    requires ascend { AreAscendingObjects objects.now }
    requires chained { AreChained side objects.now records.now [] }
    ensures ok { OnOk result (ListsRun side records.now owner found.old found.new) }
    ensures err { OnErr result (Extends found.old found.new) }
{
    let mut next = head(objects, side, owner);
    'records: while let Some(key) = next {
        let Some(record) = records.get(key) else {
            return Ok(());
        };
        found.push(record.edge)?;
        let after = record.link(side, Way::After);
        next = after;
    }
    Ok(())
}

/// The same, and behind `keys` where the record of each edge lies.
pub fn push_records(
    objects: &[ObjectRecord],
    records: &Slab<EdgeRecord>,
    side: Side,
    owner: Oid,
    found: &mut EdgeBuf,
    keys: &mut Vec<usize>,
) -> Result<(), NoMemory>
    requires ascend { AreAscendingObjects objects.now }
    requires chained { AreChained side objects.now records.now [] }
    ensures { OnOk result (ListsRun side records.now owner found.old found.new) }
{
    let mut next = head(objects, side, owner);
    'records: while let Some(key) = next {
        let Some(record) = records.get(key) else {
            return Ok(());
        };
        keys.push(key)?;
        found.push(record.edge)?;
        let after = record.link(side, Way::After);
        next = after;
    }
    Ok(())
}
