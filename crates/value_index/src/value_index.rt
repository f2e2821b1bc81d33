ghost use Rattle.std.specs.Prelude.{◌≡◌, ◌<◌, ◌≤◌, ◌^◌, [], length, All, Contains, IfOk, OnOk};
ghost use Rattle.index_traits.specs.Entries.{AreAscendingEntries, IsProbed, IsFound};
ghost use Rattle.sorted_list.specs.SortedLists.{IsLessWith, AreWithout, AreJoined};
ghost use Rattle.value_index.specs.Values.{FitsEntries, HasRoom};
ghost use Rattle.value_orders.specs.Held.{AscendByObject};
ghost use Rattle.value_orders.specs.EntryOrder.{entry_order, AscendByValue};
ghost use Rattle.value_orders.specs.Orders.{order_at};
ghost use Rattle.value_index.specs.inside.Runs.{ListsOnce};

use crate::bisection::run_of;
use crate::leaving::change_values;
use crate::runs::Runs;
use crate::value_plan::ValuePlan;
use index_traits::{EntryList, Values};
use lore_base::{Label, NoMemory, Oid, OidBuf, Op, Value};
use sorted_list::OrderedList;
use std::alloc::Global;
use std::marker::Model;
use value_orders::{ByValue, Entry, EntryOrders, Kind};

/// The values of objects, each once, and in five orders the value entries that name them: of whole
/// numbers, of texts, of flags, of texts that read as whole numbers, and of texts that read as
/// flags. Contracts see it as the list of entries in the order of label and object, and for how
/// many more values and entries it has room.
#[derive(Drop)]
pub struct ValueIndex {
    values: Vec<(Oid, Value)>,
    wholes: OrderedList<Entry>,
    chars: OrderedList<Entry>,
    flags: OrderedList<Entry>,
    readings: OrderedList<Entry>,
    flag_readings: OrderedList<Entry>,
}

impl Model for ValueIndex {
    ghost use Rattle.std.specs.Prelude.{◌-◌, length, vec_capacity};
    ghost use Rattle.value_index.specs.Values.{RoomyEntries};
    ghost use Rattle.value_orders.specs.Orders.{orders_of, in_order};
    ghost use Rattle.value_index.specs.inside.Counted.{AreCountedOrders};

    ghost Value = { RoomyEntries };

    ghost view = { λ i. record {
      entries = in_order (orders_of i.values.items i.wholes.items i.chars.items i.flags.items
          i.readings.items i.flag_readings.items);
      room = record {
        values = vec_capacity i.values - length i.values.items;
        wholes = i.wholes.room;
        chars = i.chars.room;
        flags = i.flags.room;
        readings = i.readings.room;
        flag_readings = i.flag_readings.room;
      };
    } };

    ghost invariant = { λ i. AreCountedOrders (orders_of i.values.items i.wholes.items
        i.chars.items i.flags.items i.readings.items i.flag_readings.items) };
}

impl ValueIndex {
    /// The index of no entries. Takes no memory.
    pub fn new(alloc: Global) -> ValueIndex
        ensures { result.entries ≡ [] }
    {
        ValueIndex {
            values: Vec::new(alloc),
            wholes: OrderedList::new(alloc),
            chars: OrderedList::new(alloc),
            flags: OrderedList::new(alloc),
            readings: OrderedList::new(alloc),
            flag_readings: OrderedList::new(alloc),
        }
    }

    /// Sorts the entries that go, which are kept, and those that come, which aren't kept once the
    /// others are gone. What comes has an atomic value, and each object one value then. The index
    /// stays as it is.
    pub fn prepare(&self, gone: EntryList, come: EntryList) -> Result<ValuePlan, NoMemory>
        requires fits { FitsEntries self.now.entries gone come }
        ensures gone { IfOk result (λ plan. plan.gone ≡ gone) }
        ensures come { IfOk result (λ plan. plan.come ≡ come) }
    {
        // What goes is kept here, so that its values are atomic, and one for each object.
        let _kept = &self.values;
        let alloc = come.allocator();
        let mut leaving = gone.into_items();
        let mut coming = come.into_items();
        let gone = EntryOrders::of(alloc, leaving.as_mut_slice())?;
        let come = EntryOrders::of(alloc, coming.as_mut_slice())?;
        Ok(ValuePlan { gone, come })
    }

    /// Takes the memory that `commit` needs for this plan. The index stays equal, whatever the
    /// answer.
    pub fn reserve(&mut self, plan: &ValuePlan) -> Result<(), NoMemory>
        ensures room { OnOk result (HasRoom self.new plan.now) }
        ensures same { self.new.entries ≡ self.old.entries }
    {
        self.values.reserve(plan.come.values.len())?;
        self.wholes.reserve(plan.come.wholes.len())?;
        self.chars.reserve(plan.come.chars.len())?;
        self.flags.reserve(plan.come.flags.len())?;
        self.readings.reserve(plan.come.readings.len())?;
        self.flag_readings.reserve(plan.come.flag_readings.len())?;
        Ok(())
    }

    /// Takes out the entries that go and puts in those that come. Takes no memory.
    pub fn commit(&mut self, plan: ValuePlan)
        requires fits { FitsEntries self.old.entries plan.gone plan.come }
        requires room { HasRoom self.old plan }
        ensures ascend { AreAscendingEntries self.new.entries }
        ensures entries { IsLessWith self.old.entries plan.gone plan.come self.new.entries }
    {
        let ValuePlan { gone, come } = plan;
        let old = self.values.as_slice();
        take_from(&mut self.wholes, old, &gone, Kind::Wholes);
        take_from(&mut self.chars, old, &gone, Kind::Texts);
        take_from(&mut self.flags, old, &gone, Kind::Flags);
        take_from(&mut self.readings, old, &gone, Kind::Readings);
        take_from(&mut self.flag_readings, old, &gone, Kind::FlagReadings);
        let EntryOrders {
            values,
            wholes,
            chars,
            flags,
            readings,
            flag_readings: read_flags,
        } = come;
        change_values(
            &mut self.values,
            gone.into_values(),
            values,
            &self.wholes,
            &self.chars,
            &self.flags,
        );
        let new = self.values.as_slice();
        put_into(&mut self.wholes, new, Kind::Wholes, wholes);
        put_into(&mut self.chars, new, Kind::Texts, chars);
        put_into(&mut self.flags, new, Kind::Flags, flags);
        put_into(&mut self.readings, new, Kind::Readings, readings);
        put_into(&mut self.flag_readings, new, Kind::FlagReadings, read_flags);
    }

    // What a probe finds in each order: there the entries whose values compare so with this one.
    fn runs(&self, label: Label, op: Op, value: &Value) -> Runs<'_>
        requires op { IsProbed op }
        ensures found { ListsOnce (IsFound self.now.entries label op value.now) result }
        ensures few { length result < 2 ^ 32 }
    {
        let values = self.values.as_slice();
        let readings = self.readings.as_slice();
        let flag_readings = self.flag_readings.as_slice();
        Runs {
            wholes: run_of(
                self.wholes.as_slice(),
                values,
                Kind::Wholes,
                label,
                op,
                value,
            ),
            chars: run_of(self.chars.as_slice(), values, Kind::Texts, label, op, value),
            flags: run_of(self.flags.as_slice(), values, Kind::Flags, label, op, value),
            readings: run_of(readings, values, Kind::Readings, label, op, value),
            flag_readings: run_of(flag_readings, values, Kind::FlagReadings, label, op, value),
        }
    }
}

impl Values for ValueIndex {
    ghost entries = { λ i. i.entries };

    fn probe(&self, label: Label, op: Op, value: &Value, buf: &mut OidBuf) -> Result<(), NoMemory> {
        let start = buf.len();
        self.runs(label, op, value).push_to(buf)?;
        buf.sort_from(start);
        Ok(())
    }

    fn probe_count(&self, label: Label, op: Op, value: &Value) -> u32 {
        self.runs(label, op, value).len()
    }
}

// Takes the entries of the kind that go out of their order.
fn take_from(
    order: &mut OrderedList<Entry>,
    values: &[(Oid, Value)],
    gone: &EntryOrders,
    kind: Kind,
)
    requires objects { AscendByObject values.now }
    requires ascend { AscendByValue values.now kind order.old.items }
    ensures without { AreWithout (entry_order values.now kind) (order_at gone.now kind)
        order.old.items order.new.items }
    ensures room { order.old.room ≤ order.new.room }
{
    let listed = ByValue::new(gone.values.as_slice(), kind);
    order.take_out(&ByValue::new(values, kind), gone.order(kind), &listed);
}

// Puts the entries that come, which stand in their order already, into an order.
fn put_into(order: &mut OrderedList<Entry>, values: &[(Oid, Value)], kind: Kind, come: Vec<Entry>)
    requires objects { AscendByObject values.now }
    requires ascend { AscendByValue values.now kind order.old.items }
    requires come { AscendByValue values.now kind come.items }
    requires new { All (λ entry. ¬ Contains order.old.items entry) come.items }
    requires room { length come.items ≤ order.old.room }
    ensures { AreJoined (entry_order values.now kind) order.old.items come.items order.new.items }
{
    order.put_in(&ByValue::new(values, kind), come);
}

#[cfg(test)]
mod tests;
