ghost use Rattle.std.specs.Prelude.{◌≡◌, ◌↔◌, ℕ, ◌≤◌, true, List, [], ◌∷◌, ◌++◌, length, map, take};
ghost use Rattle.std.specs.Prelude.{slice_get};
ghost use Rattle.std.specs.Prelude.{AllPairs, Contains, IsTrue, IfOk, OnOk, OnErr};
ghost use Rattle.std.specs.declared.cmp.Ordering.TheVariants.{Less};
ghost use Rattle.std.specs.Option.{option_copied};
ghost use Rattle.lore_lists.specs.Lists.{IsSortedFrom};

use crate::no_memory::NoMemory;
use crate::texts::OemText;
use std::alloc::Global;
use std::marker::Model;

/// A copy that may be refused for want of memory. It stands for the same as its source.
pub trait TryCopy: Sized {
    /// What a value stands for: itself, or the plain data of a value that holds pointers and room.
    ghost Seen: { Type 0 };

    ghost seen: { Self → Seen };

    fn try_copy(&self, alloc: Global) -> Result<Self, NoMemory>
        ensures { IfOk result (λ copy. seen copy ≡ seen self.now) };
}

/// A list that grows at its end, seen by contracts as the list of its items.
#[derive(Debug, Drop)]
pub struct Listing<T> {
    items: Vec<T>,
}

impl<T> Model for Listing<T> {
    ghost use Rattle.std.specs.Prelude.{List};

    ghost Value = { List T };

    ghost view = { λ l. l.items.items };
}

impl<T> Listing<T> {
    /// The empty list. Takes no memory.
    pub fn new(alloc: Global) -> Self
        ensures { result ≡ [] }
    {
        Listing {
            items: Vec::new(alloc),
        }
    }

    /// The empty list, with room for this many items.
    pub fn with_capacity(alloc: Global, room: usize) -> Result<Self, NoMemory>
        ensures { IfOk result (λ list. list ≡ []) }
    {
        Ok(Listing {
            items: Vec::with_capacity(alloc, room)?,
        })
    }

    /// The number of items.
    pub fn len(&self) -> usize
        ensures { result ≡ length self.now }
    {
        self.items.len()
    }

    /// Whether there is no item.
    pub fn is_empty(&self) -> bool
        ensures { IsTrue result ↔ (self.now ≡ []) }
    {
        self.items.is_empty()
    }

    /// The item at place `i`, counted from 0; None exactly where there are not so many.
    pub fn get(&self, i: usize) -> Option<&T>
        ensures { option_copied result ≡ slice_get self.now i }
    {
        self.items.get(i)
    }

    /// The items as a slice.
    pub fn as_slice(&self) -> &[T]
        ensures { result.now ≡ self.now }
    {
        self.items.as_slice()
    }

    /// The items as a vector. Takes no memory.
    pub fn into_items(self) -> Vec<T>
        ensures { result.items ≡ self }
    {
        let Listing { items } = self;
        items
    }

    /// The allocator that the list takes its memory from. Contracts see of a list its items alone, so
    /// no clause can say which it is; it decides no answer but want of memory.
    pub fn allocator(&self) -> Global {
        *self.items.allocator()
    }
}

impl<T: Drop> Listing<T> {
    /// Puts an item behind those that are there.
    pub fn push(&mut self, item: T) -> Result<(), NoMemory>
        ensures ok { OnOk result (self.new ≡ self.old ++ item ∷ []) }
        ensures err { OnErr result (self.new ≡ self.old) }
    {
        self.items.push(item)?;
        Ok(())
    }

    /// Keeps the first `len` items. Takes no memory.
    pub fn cut(&mut self, len: usize)
        requires { len ≤ length self.old }
        ensures { self.new ≡ take len self.old }
    {
        self.items.truncate(len);
    }
}

impl<T: Copy> Listing<T> {
    /// The items of `more`, after those that are there.
    pub fn append(&mut self, more: &[T]) -> Result<(), NoMemory>
        ensures ok { OnOk result (self.new ≡ self.old ++ more.now) }
        ensures err { OnErr result (self.new ≡ self.old) }
    {
        self.items.extend_from_slice(more)?;
        Ok(())
    }
}

impl<T: Ord + Copy> Listing<T> {
    /// Puts the items from place `from` on into ascending order and leaves the earlier ones. Takes
    /// no memory.
    pub fn sort_from(&mut self, from: usize)
        requires { from ≤ length self.old }
        ensures { IsSortedFrom T.cmp from self.old self.new }
    {
        sort_tail(self.items.as_mut_slice(), from);
    }

    /// Puts the items into ascending order, each once. Takes no memory.
    pub fn sort_set(&mut self)
        ensures ascend { AllPairs (λ a b. T.cmp a b ≡ Less) self.new }
        ensures members { ((a b : T) → T.eq a b ≡ true → a ≡ b)
            → (item : T) → Contains self.new item ↔ Contains self.old item }
        ensures few { length self.new ≤ length self.old }
    {
        self.items.sort_unstable();
        self.items.dedup();
    }
}

fn sort_tail<T: Ord>(items: &mut [T], from: usize)
    requires { from ≤ length items.old }
    ensures { IsSortedFrom T.cmp from items.old items.new }
{
    items[from..].sort_unstable();
}

impl<T: TryCopy + Drop> TryCopy for Listing<T> {
    ghost Seen = { List T.Seen };

    ghost seen = { λ list. map T.seen list };

    fn try_copy(&self, alloc: Global) -> Result<Self, NoMemory> {
        let mut items = Vec::with_capacity(alloc, self.items.len())?;
        'items: for item in &self.items {
            items.push(item.try_copy(alloc)?)?;
        }
        Ok(Listing { items })
    }
}

impl TryCopy for u64 {
    ghost Seen = { ℕ };

    ghost seen = { λ number. number };

    fn try_copy(&self, _alloc: Global) -> Result<Self, NoMemory> {
        Ok(*self)
    }
}

/// Texts.
pub type TextList = Listing<OemText>;

/// Numbers of calls, counted from 1.
pub type CallList = Listing<u64>;
