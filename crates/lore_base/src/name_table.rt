ghost use Rattle.std.specs.Prelude.{◌≡◌, ◌↔◌, ℕ, List, [], ◌++◌, length, map, Contains};
ghost use Rattle.std.specs.Prelude.{IfOk, OnOk, OnErr, IfSome, IfNone, Some, ◌≤◌, slice_get};
ghost use Rattle.std.specs.Map.{keys_of, remove_entry};
ghost use Rattle.std.specs.BTreeMap.{insert_entry, is_at};
ghost use Rattle.lore_base.specs.Types.{Oid as TheOid};
ghost use Rattle.lore_lists.specs.Bytes.{bytes_cmp};
ghost use Rattle.lore_base.specs.Names.{object_of, IsNameTable};
ghost use Rattle.lore_base.specs.ChangeSets.{NamesThen, IsRenamed};
ghost use Rattle.lore_base.specs.inside.NameTables.{names_after, names_without, found_objects};

use crate::change_set::Changes;
use crate::edges::Oid;
use crate::lists::OidBuf;
use lore_lists::{NoMemory, OemText, TextList, TryCopy};
use std::alloc::Global;
use std::collections::BTreeMap;
use std::marker::Model;

/// Names with their objects, seen by contracts as a list of (text, object), ascending by bytes. A
/// table takes its memory from the allocator that it was made with.
#[derive(Drop)]
pub struct Names {
    alloc: Global,
    objects: BTreeMap<OemText, Oid>,
}

impl Model for Names {
    ghost use Rattle.std.specs.Prelude.{ℕ, List};
    ghost use Rattle.lore_base.specs.declared.edges.Oid.{Oid};

    ghost Value = { List (List ℕ × Oid) };

    ghost view = { λ n. n.objects.entries };
}

impl Names {
    /// The table of no name. Takes no memory.
    pub fn new(alloc: Global) -> Names
        ensures { result ≡ [] }
    {
        Names {
            alloc,
            objects: BTreeMap::new(alloc),
        }
    }

    /// The number of names.
    pub fn len(&self) -> usize
        ensures count { result ≡ length self.now }
        ensures table { IsNameTable self.now }
    {
        self.objects.len()
    }

    /// The object of the name; None exactly where the name isn't there.
    pub fn find(&self, name: &OemText) -> Option<Oid>
        ensures { result ≡ object_of self.now name.now }
    {
        self.objects.get(name).copied()
    }

    /// The name at a place in the names' order, from 0 on, with its object; None exactly where there are
    /// not so many names. Goes through the names before it.
    pub fn get(&self, place: usize) -> Option<(&OemText, Oid)>
        ensures some { IfSome result (λ entry.
            slice_get self.now place ≡ Some (entry.0.now, entry.1)) }
        ensures none { IfNone result (length self.now ≤ place) }
    {
        let mut before = 0;
        'names: for (name, oid) in &self.objects {
            if before == place {
                return Some((name, *oid));
            }
            before += 1;
        }
        None
    }

    /// Binds the name, in place of an older binding.
    pub fn put(&mut self, name: OemText, oid: Oid) -> Result<(), NoMemory>
        ensures ok { OnOk result (self.new ≡ insert_entry bytes_cmp self.old name oid) }
        ensures err { OnErr result (self.new ≡ self.old) }
    {
        self.objects.insert(name, oid)?;
        Ok(())
    }

    /// The names once the changes are made: those of `unnamed` are taken away, and then those of
    /// `named` bound, each in place of an older binding.
    pub fn changed_by(&self, changes: &Changes) -> Result<Names, NoMemory>
        ensures ascend { IfOk result IsNameTable }
        ensures members { IfOk result (λ names. (entry : List ℕ × TheOid) → Contains names entry
            ↔ NamesThen self.now changes.now entry) }
        ensures table { IsNameTable self.now }
    {
        let mut names = Names::new(self.alloc);
        names.put_all(self)?;
        names.take_all(&changes.unnamed);
        names.put_all(&changes.named)?;
        Ok(names)
    }

    /// The objects of the names, in the names' order.
    pub fn objects(&self) -> Result<OidBuf, NoMemory>
        ensures { IfOk result (λ oids. oids ≡ map (λ entry. entry.1) self.now) }
    {
        let mut oids = OidBuf::with_capacity(self.alloc, self.len())?;
        'names: for (_, oid) in &self.objects {
            oids.push(*oid)?;
        }
        Ok(oids)
    }

    /// The names, ascending by bytes.
    pub fn texts(&self) -> Result<TextList, NoMemory>
        ensures { IfOk result (λ texts. texts ≡ keys_of self.now) }
    {
        let mut texts = TextList::with_capacity(self.alloc, self.len())?;
        'names: for (name, _oid) in &self.objects {
            texts.push(name.try_copy(self.alloc)?)?;
        }
        Ok(texts)
    }

    /// The objects of the names that the changes bind anew or take away, in no order. One may stand
    /// there several times.
    pub fn renamed_objects(&self, changes: &Changes) -> Result<OidBuf, NoMemory>
        ensures { IfOk result (λ oids. (oid : TheOid) → Contains oids oid
            ↔ ((name : List ℕ) × Contains self.now (name, oid) × IsRenamed changes.now name)) }
    {
        let room = self.len().min(changes.named.len());
        let mut oids = OidBuf::with_capacity(self.alloc, room)?;
        self.add_bound(&changes.named, &mut oids)?;
        self.add_found(&changes.unnamed, &mut oids)?;
        Ok(oids)
    }

    // Puts the objects of those names that `more` has too behind `oids`.
    fn add_bound(&self, more: &Names, oids: &mut OidBuf) -> Result<(), NoMemory>
        ensures { OnOk result (oids.new ≡ oids.old ++ found_objects self.now (keys_of more.now)) }
    {
        'names: for (name, _oid) in &more.objects {
            if let Some(oid) = self.find(name) {
                oids.push(oid)?;
            }
        }
        Ok(())
    }

    // Puts the objects of those words that are names behind `oids`.
    fn add_found(&self, words: &TextList, oids: &mut OidBuf) -> Result<(), NoMemory>
        ensures { OnOk result (oids.new ≡ oids.old ++ found_objects self.now words.now) }
    {
        'words: for word in words.as_slice() {
            if let Some(oid) = self.find(word) {
                oids.push(oid)?;
            }
        }
        Ok(())
    }

    // Takes these names away, where they are there.
    fn take_all(&mut self, words: &TextList)
        ensures { self.new ≡ names_without self.old words.now }
    {
        'words: for word in words.as_slice() {
            self.take(word);
        }
    }

    // Takes the name away, where it is there.
    fn take(&mut self, name: &OemText)
        ensures { self.new ≡ remove_entry (is_at (bytes_cmp name.now)) self.old }
    {
        self.objects.remove(name);
    }

    // Binds each name of `more`, in place of an older binding.
    fn put_all(&mut self, more: &Names) -> Result<(), NoMemory>
        ensures all { OnOk result (self.new ≡ names_after self.old more.now) }
        ensures table { IsNameTable more.now }
    {
        'entries: for (name, oid) in &more.objects {
            self.put(name.try_copy(self.alloc)?, *oid)?;
        }
        Ok(())
    }
}

impl TryCopy for Names {
    ghost Seen = { List (List ℕ × TheOid) };

    ghost seen = { λ names. names };

    fn try_copy(&self, alloc: Global) -> Result<Self, NoMemory> {
        let mut names = Names::new(alloc);
        names.put_all(self)?;
        Ok(names)
    }
}
