ghost use Rattle.std.specs.Prelude.{◌≡◌, ◌↔◌, ◌⊎◌, ◌++◌, ℕ, List, length, Contains, slice_get};
ghost use Rattle.std.specs.Prelude.{IsTrue, IfOk, OnOk, OnErr};
ghost use Rattle.oem_set.specs.Types.{Oid as TheOid};
ghost use Rattle.lore_base.specs.TargetSets.{ListsInOrder};
ghost use Rattle.oem_set.specs.Sets.{IsSet, hash_of};

use crate::hashes::{hash_after, hash_oids};
use lore_base::{NoMemory, Oid, OidBuf};
use std::marker::Model;

/// A set of objects, kept as the ascending list of their numbers, with its hash. Contracts see it
/// as that list.
#[derive(Debug, Drop)]
pub struct OidSet {
    oids: OidBuf,
    hash: u64,
}

impl Model for OidSet {
    ghost use Rattle.std.specs.Prelude.{◌≡◌, List};
    ghost use Rattle.oem_set.specs.Types.{Oid};
    ghost use Rattle.oem_set.specs.Sets.{IsSet, hash_of};

    ghost Value = { List Oid };

    ghost view = { λ s. s.oids };

    ghost invariant = { λ s. IsSet s.oids × (s.hash ≡ hash_of s.oids) };
}

// Puts the objects in ascending order, each once.
fn put_in_order(buf: &mut OidBuf)
    ensures { ListsInOrder (Contains buf.old) buf.new }
{
    buf.sort_set();
}

// Whether all of the second objects come behind the first ones, where both ascend.
fn come_behind(first: &[Oid], second: &[Oid]) -> bool
    requires first { IsSet first.now }
    requires second { IsSet second.now }
    ensures { IsTrue result → IsSet (first.now ++ second.now) }
{
    let Some(last) = first.last() else {
        return true;
    };
    match second.first() {
        Some(next) => last.0 < next.0,
        None => true,
    }
}

impl OidSet {
    /// The objects of the buffer, each once. The buffer itself is put in ascending order, each
    /// object once, whatever the answer.
    pub fn from_buf(buf: &mut OidBuf) -> Result<OidSet, NoMemory>
        ensures set { IfOk result (λ set. ListsInOrder (Contains buf.old) set) }
        ensures buffer { ListsInOrder (Contains buf.old) buf.new }
    {
        put_in_order(buf);
        let mut oids = OidBuf::with_capacity(buf.allocator(), buf.len())?;
        oids.append(buf.as_slice())?;
        Ok(OidSet::from_ascending(oids))
    }

    /// The set of these objects, which ascend. Takes no memory.
    pub fn from_ascending(oids: OidBuf) -> OidSet
        requires { IsSet oids }
        ensures { result ≡ oids }
    {
        let hash = hash_oids(oids.as_slice());
        OidSet { oids, hash }
    }

    /// The number of objects.
    pub fn len(&self) -> usize
        ensures { result ≡ length self.now }
    {
        self.oids.len()
    }

    /// The object at place `i`, counted from 0; None exactly where there are not so many.
    pub fn get(&self, i: usize) -> Option<Oid>
        ensures { result ≡ slice_get self.now i }
    {
        self.oids.get(i).copied()
    }

    /// The objects as a slice, in ascending order.
    pub fn as_slice(&self) -> &[Oid]
        ensures oids { result.now ≡ self.now }
        ensures set { IsSet self.now }
    {
        self.oids.as_slice()
    }

    /// Whether the object is in the set: a binary search. Takes no memory.
    pub fn contains(&self, oid: Oid) -> bool
        ensures { IsTrue result ↔ Contains self.now oid }
    {
        match self.as_slice().binary_search(&oid) {
            Ok(_) => true,
            Err(_) => false,
        }
    }

    /// Whether some object is in both sets. Takes no memory.
    pub fn meets(&self, other: &OidSet) -> bool
        ensures { IsTrue result
            ↔ ((oid : TheOid) × Contains self.now oid × Contains other.now oid) }
    {
        if self.len() <= other.len() {
            other.has_one_of(self.as_slice())
        } else {
            self.has_one_of(other.as_slice())
        }
    }

    // Whether one of the objects is in the set.
    fn has_one_of(&self, oids: &[Oid]) -> bool
        ensures { IsTrue result
            ↔ ((oid : TheOid) × Contains oids.now oid × Contains self.now oid) }
    {
        'oids: for oid in oids {
            if self.contains(*oid) {
                return true;
            }
        }
        false
    }

    /// Whether the sets have the same objects. Lists are compared only where the hashes agree.
    /// Takes no memory.
    pub fn equal(&self, other: &OidSet) -> bool
        ensures { IsTrue result ↔ (self.now ≡ other.now) }
    {
        self.hash == other.hash && self.oids.as_slice() == other.oids.as_slice()
    }

    /// The hash of the set's list: equal sets have equal hashes.
    pub fn hash64(&self) -> u64
        ensures { result ≡ hash_of self.now }
    {
        self.hash
    }

    /// Puts the objects of this set into the other one, which keeps its own. Where all of the other
    /// one's come behind this one's, nothing is sorted, and only the other one's are hashed.
    pub fn union_into(&self, out: &mut OidSet) -> Result<(), NoMemory>
        ensures ok { OnOk result
            (ListsInOrder (λ oid. Contains self.now oid ⊎ Contains out.old oid) out.new) }
        ensures err { OnErr result (out.new ≡ out.old) }
    {
        let room = self.len().saturating_add(out.len());
        let mut oids = OidBuf::with_capacity(self.oids.allocator(), room)?;
        oids.append(self.as_slice())?;
        oids.append(out.as_slice())?;
        if come_behind(self.as_slice(), out.as_slice()) {
            let hash = hash_after(self.hash, out.as_slice());
            *out = OidSet { oids, hash };
        } else {
            oids.sort_set();
            *out = OidSet::from_ascending(oids);
        }
        Ok(())
    }
}
