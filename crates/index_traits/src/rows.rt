ghost use Rattle.std.specs.Prelude.{◌≡◌, ◌↔◌, ◌<◌, List, Some, length, replicate, slice_get, slice_set};
ghost use Rattle.std.specs.Prelude.{IsTrue, IfOk, IfSome};
ghost use Rattle.lore_base.specs.Walks.{oid_of};
ghost use Rattle.index_traits.specs.Types.{Oid as TheOid, RANGES as THE_RANGES};
ghost use Rattle.index_traits.specs.PartRows.{NonePasses, AreAllThatFit};

use lore_base::limits::RANGES;
use lore_base::{NoMemory, Oid, OidBuf, Steps};
use smallvec::SmallVec;
use std::alloc::Global;
use std::marker::Model;
use std::sync::ledger::Ledger;

/// An object for each range of a select, kept in place. Contracts see it as the list of its eight
/// objects. No call takes memory.
#[derive(Drop)]
pub struct Row {
    oids: SmallVec<Oid, RANGES>,
}

impl Model for Row {
    ghost use Rattle.std.specs.Prelude.{◌≡◌, List, length};
    ghost use Rattle.index_traits.specs.Types.{Oid, RANGES};

    ghost Value = { List Oid };

    ghost view = { λ row. row.oids.items };

    ghost invariant = { λ row. length row.oids.items ≡ RANGES };
}

impl Row {
    /// The row of `Oid(0)`, which is no object, in every slot.
    pub fn new(alloc: Global) -> Row
        ensures { result ≡ replicate THE_RANGES (oid_of 0) }
    {
        Row {
            oids: SmallVec::from_buf(alloc, [Oid(0); RANGES]),
        }
    }

    /// Puts the object into the slot, counted from 0.
    pub fn set(&mut self, slot: u32, oid: Oid)
        requires { slot < THE_RANGES }
        ensures oid { self.new ≡ slice_set self.old slot oid }
        ensures eight { length self.old ≡ THE_RANGES }
    {
        self.oids.as_mut_slice()[slot as usize] = oid;
    }

    /// The object in the slot, counted from 0.
    pub fn get(&self, slot: u32) -> Oid
        requires { slot < THE_RANGES }
        ensures oid { slice_get self.now slot ≡ Some result }
        ensures eight { length self.now ≡ THE_RANGES }
    {
        self.oids.as_slice()[slot as usize]
    }

    /// An equal row.
    pub fn copy(&self) -> Row
        ensures { result ≡ self.now }
    {
        let Ok(oids) = <[Oid; RANGES]>::try_from(self.oids.as_slice()) else {
            unreachable!();
        };
        Row {
            oids: SmallVec::from_buf(*self.oids.allocator(), oids),
        }
    }
}

/// A condition on rows.
pub trait RowTest {
    /// The rows of which the condition holds.
    ghost passes: { Self → List TheOid → Type 0 };

    /// Whether the condition holds of the row. What it reads of a database is counted in `steps`.
    fn holds<L: Ledger>(
        &self,
        alloc: Global,
        row: &Row,
        steps: &mut Steps<L>,
    ) -> Result<bool, NoMemory>
        ensures { IfOk result (λ answer. IsTrue answer ↔ passes self.now row.now) };

    /// Whether the objects in the known slots tell already that the condition holds of no row that
    /// has them there. A test that doesn't look answers false.
    fn rules_out<L: Ledger>(
        &self,
        alloc: Global,
        known: &[bool; RANGES],
        row: &Row,
        steps: &mut Steps<L>,
    ) -> Result<bool, NoMemory>
        ensures { IfOk result (λ answer. IsTrue answer
            → NonePasses (passes self.now) known.now row.now) }
    {
        Ok(false)
    }

    /// Objects, ascending, among which is the one in the slot of each row that has the row's
    /// objects in the known slots and of which the condition holds; None where the test can't
    /// list them.
    fn fitting<L: Ledger>(
        &self,
        alloc: Global,
        known: &[bool; RANGES],
        slot: u32,
        row: &Row,
        steps: &mut Steps<L>,
    ) -> Result<Option<OidBuf>, NoMemory>
        ensures { IfOk result (λ found. IfSome found (λ oids.
            AreAllThatFit (passes self.now) known.now slot row.now oids)) }
    {
        Ok(None)
    }
}
