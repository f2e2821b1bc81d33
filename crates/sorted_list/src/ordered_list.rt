ghost use Rattle.std.specs.Prelude.{◌≡◌, ◌≤◌, [], length, All, Contains, OnOk};
ghost use Rattle.sorted_list.specs.SortedLists.{Ascends, IsExact, AreWithout, AreJoined};

use crate::coming::put_in;
use crate::going::take_out;
use crate::order::Order;
use crate::single::FEW;
use lore_lists::NoMemory;
use std::alloc::Global;
use std::marker::Model;

/// Items, each once, in an order that each call is told. Contracts see it as the list of its items,
/// and for how many more it has room.
#[derive(Drop)]
pub struct OrderedList<T> {
    items: Vec<T>,
    // Empty: the memory in which items lie aside while many others are put in before them.
    aside: Vec<T>,
}

impl<T> Model for OrderedList<T> {
    ghost use Rattle.std.specs.Prelude.{◌≡◌, ◌-◌, [], length, vec_capacity};
    ghost use Rattle.lore_lists.specs.Lists.{Roomy};

    ghost Value = { Roomy T };

    ghost view = { λ l. record {
      items = l.items.items;
      room = vec_capacity l.items - length l.items.items;
    } };

    ghost invariant = { λ l. l.aside.items ≡ [] };
}

impl<T> OrderedList<T> {
    /// The empty list. Takes no memory.
    pub fn new(alloc: Global) -> OrderedList<T>
        ensures { result.items ≡ [] }
    {
        OrderedList {
            items: Vec::new(alloc),
            aside: Vec::new(alloc),
        }
    }

    /// The items as a slice.
    pub fn as_slice(&self) -> &[T]
        ensures { result.now ≡ self.now.items }
    {
        self.items.as_slice()
    }
}

impl<T: Drop> OrderedList<T> {
    /// Makes room for this many more items. The items stay as they are, whatever the answer. Fails
    /// where memory is refused, or where so many items would be more than can be counted.
    pub fn reserve(&mut self, more: usize) -> Result<(), NoMemory>
        ensures items { self.new.items ≡ self.old.items }
        ensures room { OnOk result (more ≤ self.new.room) }
    {
        let Some(len) = self.items.len().checked_add(more) else {
            return Err(NoMemory);
        };
        self.items.reserve(more)?;
        if more > FEW && !self.items.is_empty() {
            self.aside.reserve(len)?;
        }
        Ok(())
    }

    /// Takes out what goes, which ascends in an order of its own. Takes no memory. A few items are
    /// found by bisection, and those behind each are moved. Of more, each item is searched in what
    /// goes.
    pub fn take_out<O: Order<T>, P: Order<T>>(&mut self, order: &O, gone: &[T], listed: &P)
        requires exact { IsExact (O.order_of order.now) }
        requires exact_listed { IsExact (P.order_of listed.now) }
        requires ascend { Ascends (O.order_of order.now) self.old.items }
        requires gone { Ascends (P.order_of listed.now) gone.now }
        ensures without { AreWithout (O.order_of order.now) gone.now self.old.items self.new.items }
        ensures room { self.old.room ≤ self.new.room }
    {
        take_out(&mut self.items, order, gone, listed);
    }

    /// Puts what comes at its places. Takes no memory. A few items are put in one by one. Of more,
    /// the items from the least one that comes on are moved aside and back.
    pub fn put_in<O: Order<T>>(&mut self, order: &O, come: Vec<T>)
        requires exact { IsExact (O.order_of order.now) }
        requires ascend { Ascends (O.order_of order.now) self.old.items }
        requires come { Ascends (O.order_of order.now) come.items }
        requires new { All (λ item. ¬ Contains self.old.items item) come.items }
        requires room { length come.items ≤ self.old.room }
        ensures { AreJoined (O.order_of order.now) self.old.items come.items self.new.items }
    {
        put_in(&mut self.items, order, come, &mut self.aside);
        self.aside = Vec::new(*self.items.allocator());
    }
}
