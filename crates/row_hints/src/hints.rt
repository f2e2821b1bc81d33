ghost use Rattle.std.specs.Prelude.{List, IsTrue, IfOk, IfSome};
ghost use Rattle.row_hints.specs.Types.{Oid as TheOid};
ghost use Rattle.index_traits.specs.PartRows.{NonePasses, AreAllThatFit};

use index_traits::Row;
use lore_base::limits::RANGES;
use lore_base::{NoMemory, OidBuf, Steps};
use std::alloc::Global;
use std::sync::ledger::Ledger;

/// What is told of rows before they are whole.
pub trait Hints {
    /// The rows of which it holds: whichever others there are, they aren't sought.
    ghost hints: { Self → List TheOid → Type 0 };

    /// Whether the objects in the known slots tell already that no row has them there of which the
    /// hints hold.
    fn rules_out<L: Ledger>(
        &self,
        alloc: Global,
        known: &[bool; RANGES],
        row: &Row,
        steps: &mut Steps<L>,
    ) -> Result<bool, NoMemory>
        ensures { IfOk result (λ answer. IsTrue answer
            → NonePasses (hints self.now) known.now row.now) };

    /// Objects, ascending, among which is the one in the slot of each row that has the row's
    /// objects in the known slots and of which the hints hold; None where they can't be listed.
    fn fitting<L: Ledger>(
        &self,
        alloc: Global,
        known: &[bool; RANGES],
        slot: u32,
        row: &Row,
        steps: &mut Steps<L>,
    ) -> Result<Option<OidBuf>, NoMemory>
        ensures { IfOk result (λ found. IfSome found (λ oids.
            AreAllThatFit (hints self.now) known.now slot row.now oids)) };
}
