ghost use Rattle.std.specs.Prelude.{◌≡◌, ℕ, ◌+◌, ◌≤◌, [], ◌∷◌, ◌++◌, length, IfOk, OnOk};
ghost use Rattle.std.specs.Prelude.{◌↔◌, true, AllPairs, Contains};
ghost use Rattle.std.specs.declared.cmp.Ordering.TheVariants.{Less};

use crate::no_memory::NoMemory;
use std::alloc::Global;
use std::marker::Model;

/// A list that takes its memory beforehand: `reserve` makes room, and what has room is put in
/// without asking for memory.
#[derive(Drop)]
pub struct RoomyList<T> {
    items: Vec<T>,
}

impl<T> Model for RoomyList<T> {
    ghost use Rattle.std.specs.Prelude.{◌-◌, vec_len, vec_capacity};
    ghost use Rattle.lore_lists.specs.Lists.{Roomy};

    ghost Value = { Roomy T };

    ghost view = { λ l. record {
      items = l.items.items;
      room = vec_capacity l.items - vec_len l.items;
    } };
}

impl<T> RoomyList<T> {
    /// The empty list. Takes no memory.
    pub fn new(alloc: Global) -> Self
        ensures { result.items ≡ [] }
    {
        RoomyList {
            items: Vec::new(alloc),
        }
    }

    /// The empty list, with room for this many items.
    pub fn with_room(alloc: Global, room: usize) -> Result<Self, NoMemory>
        ensures items { IfOk result (λ list. list.items ≡ []) }
        ensures room { IfOk result (λ list. room ≤ list.room) }
    {
        Ok(RoomyList {
            items: Vec::with_capacity(alloc, room)?,
        })
    }

    /// The list of these items. Takes no memory.
    pub fn from_items(items: Vec<T>) -> Self
        ensures { result.items ≡ items.items }
    {
        RoomyList { items }
    }

    /// The number of items.
    pub fn len(&self) -> usize
        ensures { result ≡ length self.now.items }
    {
        self.items.len()
    }

    /// The items as a slice.
    pub fn as_slice(&self) -> &[T]
        ensures { result.now ≡ self.now.items }
    {
        self.items.as_slice()
    }

    /// The allocator that the list takes its memory from. Contracts see of a list its items and room
    /// alone, so no clause can say which it is; it decides no answer but want of memory.
    pub fn allocator(&self) -> Global {
        *self.items.allocator()
    }
}

impl<T: Drop> RoomyList<T> {
    /// Makes room for this many more items. The items stay as they are, whatever the answer.
    pub fn reserve(&mut self, more: usize) -> Result<(), NoMemory>
        ensures items { self.new.items ≡ self.old.items }
        ensures room { OnOk result (more ≤ self.new.room) }
        ensures kept { self.old.room ≤ self.new.room }
    {
        self.items.reserve(more)?;
        Ok(())
    }

    /// Puts an item behind those that are there. Takes no memory.
    pub fn push_reserved(&mut self, item: T)
        requires { 1 ≤ self.old.room }
        ensures items { self.new.items ≡ self.old.items ++ item ∷ [] }
        ensures room { self.old.room ≤ self.new.room + 1 }
    {
        let Ok(()) = self.items.push(item) else {
            unreachable!();
        };
    }

    /// Puts the items of `more` behind those that are there. Takes no memory.
    pub fn take_reserved(&mut self, more: Vec<T>)
        requires { length more.items ≤ self.old.room }
        ensures items { self.new.items ≡ self.old.items ++ more.items }
        ensures room { self.old.room ≤ self.new.room + length more.items }
    {
        let mut more = more;
        let Ok(()) = self.items.append(&mut more) else {
            unreachable!();
        };
    }
}

impl<T: Copy> RoomyList<T> {
    /// Puts the items of `more` behind those that are there. Takes no memory.
    pub fn append_reserved(&mut self, more: &[T])
        requires { length more.now ≤ self.old.room }
        ensures items { self.new.items ≡ self.old.items ++ more.now }
        ensures room { self.old.room ≤ self.new.room + length more.now }
    {
        let Ok(()) = self.items.extend_from_slice(more) else {
            unreachable!();
        };
    }
}

impl<T: Ord + Drop> RoomyList<T> {
    /// Puts the items into ascending order, each once. Takes no memory.
    pub fn sort_set(&mut self)
        ensures ascend { AllPairs (λ a b. T.cmp a b ≡ Less) self.new.items }
        ensures members { ((a b : T) → T.eq a b ≡ true → a ≡ b)
            → (item : T) → Contains self.new.items item ↔ Contains self.old.items item }
        ensures few { length self.new.items ≤ length self.old.items }
    {
        self.items.sort_unstable();
        self.items.dedup();
    }
}
