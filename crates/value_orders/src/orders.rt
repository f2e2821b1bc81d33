ghost use Rattle.std.specs.Prelude.{◌≡◌, ◌≢◌, ◌↔◌, List, All, Contains, IfOk};
ghost use Rattle.index_traits.specs.Entries.{AreAscendingEntries};
ghost use Rattle.value_orders.specs.Types.{Complex, Oid as TheOid, Value as TheValue, Entry as TheEntry};
ghost use Rattle.value_orders.specs.Entries.{HasOneValueIn};
ghost use Rattle.value_orders.specs.inside.Naming.{HoldTheirs, entries_of, named_of};
ghost use Rattle.value_orders.specs.inside.Naming.{seen};
ghost use Rattle.value_orders.specs.EntryOrder.{AscendByValue};
ghost use Rattle.value_orders.specs.Orders.{order_at, in_order, AreSortedOrders};

use crate::dealing::dealt_to_kinds;
use crate::entry::Entry;
use crate::keys::is_of;
use crate::kind::Kind;
use crate::ranked::by_rank;
use crate::sorting::{held_values, sorted};
use index_traits::ValueEntry;
use lore_base::{NoMemory, Oid, Value};
use std::alloc::Global;
use std::marker::Model;

/// Values of objects, each once and by ascending object, and in five orders the entries that name
/// these objects, as an index keeps them. Contracts see them as these lists.
#[derive(Drop)]
pub struct EntryOrders {
    pub values: Vec<(Oid, Value)>,
    pub wholes: Vec<Entry>,
    pub chars: Vec<Entry>,
    pub flags: Vec<Entry>,
    pub readings: Vec<Entry>,
    pub flag_readings: Vec<Entry>,
}

impl Model for EntryOrders {
    ghost use Rattle.value_orders.specs.Orders.{Orders, orders_of, AreSortedOrders};

    ghost Value = { Orders };

    ghost view = { λ o. orders_of o.values.items o.wholes.items o.chars.items o.flags.items
        o.readings.items o.flag_readings.items };

    ghost invariant = { λ o. AreSortedOrders (orders_of o.values.items o.wholes.items o.chars.items
        o.flags.items o.readings.items o.flag_readings.items) };
}

impl EntryOrders {
    /// Puts the entries, which come by ascending label and object and have one atomic value an
    /// object, into the five orders. Their values may be moved out of them. An error only where
    /// memory is refused.
    pub fn of(alloc: Global, entries: &mut [ValueEntry]) -> Result<EntryOrders, NoMemory>
        requires ascend { AreAscendingEntries entries.old }
        requires atomic { All (λ entry. entry.value ≢ Complex) entries.old }
        requires one_value { HasOneValueIn (Contains entries.old) }
        ensures { IfOk result (λ orders. in_order orders ≡ entries.old) }
    {
        let chars = order_of(alloc, entries, Kind::Texts)?;
        let dealt = dealt_to_kinds(alloc, entries)?;
        let wholes = by_rank(alloc, dealt.wholes)?;
        let flags = by_rank(alloc, dealt.flags)?;
        let readings = by_rank(alloc, dealt.readings)?;
        let flag_readings = by_rank(alloc, dealt.flag_readings)?;
        let values = held_values(alloc, entries)?;
        Ok(EntryOrders {
            values,
            wholes,
            chars,
            flags,
            readings,
            flag_readings,
        })
    }

    /// The order of a kind: its entries by label, value and object.
    pub fn order(&self, kind: Kind) -> &[Entry]
        ensures { result.now ≡ order_at self.now kind }
    {
        match kind {
            Kind::Wholes => self.wholes.as_slice(),
            Kind::Texts => self.chars.as_slice(),
            Kind::Flags => self.flags.as_slice(),
            Kind::Readings => self.readings.as_slice(),
            Kind::FlagReadings => self.flag_readings.as_slice(),
        }
    }

    /// The values alone, by ascending object.
    pub fn into_values(self) -> Vec<(Oid, Value)>
        ensures values { result.items ≡ self.values }
        ensures sorted { AreSortedOrders self }
    {
        self.values
    }
}

// The entries whose values are of the kind, in its order.
fn order_of(alloc: Global, entries: &[ValueEntry], kind: Kind) -> Result<Vec<Entry>, NoMemory>
    ensures ascend { IfOk result (λ order. (values : List (TheOid × TheValue))
        → HoldTheirs values entries.now → AscendByValue values kind order.items) }
    ensures members { IfOk result (λ order. (entry : TheEntry)
        → Contains order.items entry ↔ Contains (named_of kind entries.now) entry) }
{
    let own = entries_of(alloc, entries, kind)?;
    let order = sorted(alloc, own, kind)?;
    Ok(order)
}

// The entries whose values are of the kind.
fn entries_of<'a>(
    alloc: Global,
    entries: &'a [ValueEntry],
    kind: Kind,
) -> Result<Vec<&'a ValueEntry>, NoMemory>
    ensures { IfOk result (λ own. seen own.items ≡ entries_of kind entries.now) }
{
    let mut own = Vec::new(alloc);
    'entries: for entry in entries {
        if is_of(kind, &entry.value) {
            own.push(entry)?;
        }
    }
    Ok(own)
}
