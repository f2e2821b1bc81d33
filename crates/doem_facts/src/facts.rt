ghost use Rattle.std.specs.Prelude.{◌≡◌, ◌↔◌, ℕ, ◌≤◌, IsTrue, IfOk};
ghost use Rattle.std.specs.Cmp.{IsTotalOrder};
ghost use Rattle.std.specs.declared.cmp.Ordering.{Ordering as TheOrdering};
ghost use Rattle.lore_base.specs.Walks.{edge_cmp};
ghost use Rattle.doem_facts.specs.Types.{Oid as TheOid};
ghost use Rattle.doem_facts.specs.Facts.{name_order, object_order, object_weight};
ghost use Rattle.doem_facts.specs.FactLaws.{name_total, object_total, edge_total};
ghost use Rattle.doem_facts.specs.FactLaws.{name_heavy, object_heavy, edge_heavy};

use crate::values::{is_same_text, is_same_value, text_bytes};
use lore_base::{Edge, NoMemory, OemText, Oid, TryCopy, Value};
use std::alloc::Global;
use std::cmp::Ordering;

/// A fact that stands at moments, and is looked for by the object to which it belongs.
pub trait Fact: Sized {
    ghost owner_of: { Self → TheOid };

    ghost order: { Self → Self → TheOrdering };

    ghost weight_of: { Self → ℕ };

    /// The object to which the fact belongs.
    fn owner(&self) -> Oid
        ensures { result ≡ owner_of self.now };

    /// Whether the other is the same fact.
    fn is(&self, other: &Self) -> bool
        ensures { IsTrue result ↔ (self.now ≡ other.now) };

    /// How the two stand in the order of facts.
    fn compare(&self, other: &Self) -> Ordering
        ensures { result ≡ order self.now other.now };

    /// What each run of the fact weighs.
    fn weight(&self) -> u64
        ensures { result ≡ weight_of self.now };

    /// The same fact.
    fn copied(&self, alloc: Global) -> Result<Self, NoMemory>
        ensures { IfOk result (λ copy. copy ≡ self.now) };

    ghost total: { IsTotalOrder order };

    ghost heavy: { (fact : Self) → 64 ≤ weight_of fact };
}

/// A name with its object.
pub type NameFact = (OemText, Oid);

/// An object with its value.
pub type ObjectFact = (Oid, Value);

impl Fact for NameFact {
    ghost owner_of = { λ name. name.1 };

    ghost order = { name_order };

    ghost weight_of = { λ _. 64 };

    ghost total = { name_total };

    ghost heavy = { name_heavy };

    fn owner(&self) -> Oid {
        self.1
    }

    fn is(&self, other: &Self) -> bool {
        self.1.0 == other.1.0 && is_same_text(&self.0, &other.0)
    }

    fn compare(&self, other: &Self) -> Ordering {
        self.0.cmp(&other.0)
    }

    fn weight(&self) -> u64 {
        64
    }

    fn copied(&self, alloc: Global) -> Result<Self, NoMemory> {
        Ok((self.0.try_copy(alloc)?, self.1))
    }
}

impl Fact for ObjectFact {
    ghost owner_of = { λ object. object.0 };

    ghost order = { object_order };

    ghost weight_of = { object_weight };

    ghost total = { object_total };

    ghost heavy = { object_heavy };

    fn owner(&self) -> Oid {
        self.0
    }

    fn is(&self, other: &Self) -> bool {
        self.0.0 == other.0.0 && is_same_value(&self.1, &other.1)
    }

    fn compare(&self, other: &Self) -> Ordering {
        self.0.0.cmp(&other.0.0)
    }

    fn weight(&self) -> u64 {
        64 + text_bytes(&self.1) as u64
    }

    fn copied(&self, alloc: Global) -> Result<Self, NoMemory> {
        Ok((self.0, self.1.try_copy(alloc)?))
    }
}

impl Fact for Edge {
    ghost owner_of = { λ edge. edge.parent };

    ghost order = { edge_cmp };

    ghost weight_of = { λ _. 64 };

    ghost total = { edge_total };

    ghost heavy = { edge_heavy };

    fn owner(&self) -> Oid {
        self.parent
    }

    fn is(&self, other: &Self) -> bool {
        self.parent.0 == other.parent.0
            && (self.label.0 == other.label.0 && self.child.0 == other.child.0)
    }

    fn compare(&self, other: &Self) -> Ordering {
        self.cmp(other)
    }

    fn weight(&self) -> u64 {
        64
    }

    fn copied(&self, _alloc: Global) -> Result<Self, NoMemory> {
        Ok(*self)
    }
}
