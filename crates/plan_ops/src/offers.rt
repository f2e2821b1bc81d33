ghost use Rattle.std.specs.Prelude.{◌≡◌, [], ◌∷◌, length, IfOk, OnOk};
ghost use Rattle.plan_ops.specs.Types.{RANGES as THE_RANGES};
ghost use Rattle.plan_laws.specs.Steps.{StepsOver};
ghost use Rattle.plan_ops.specs.Rows.{AreQuiet};
ghost use Rattle.plan_ops.specs.inside.Offers.{IsOffer, one_unless, tested};
ghost use Rattle.plan_ops.specs.inside.Keeping.{IsKeptBy};
ghost use Rattle.plan_laws.specs.Orders.{Stands, CanBeReady};
ghost use Rattle.plan_ops.specs.inside.Ready.{HasFound, ready_tree};

use crate::kept::Kept;
use crate::ready_steps::ReadyStep;
use index_traits::Row;
use lore_base::{NoMemory, Oid, OidBuf, Steps};
use std::alloc::Global;
use std::sync::ledger::Ledger;

/// What a step makes of a row.
#[derive(Drop)]
pub(crate) enum Offer<'r> {
    /// The row with each of these objects in the slot.
    Fill { slot: u32, oids: OidBuf },
    /// The same with objects that the step keeps for further rows.
    Lend { slot: u32, oids: &'r OidBuf },
    /// The row with this object in the slot.
    One { slot: u32, oid: Oid },
    /// The row as it is.
    Keep,
    /// No row.
    Reject,
}

impl<'r> Offer<'r> {
    /// The row as it is where it passes, and else none.
    pub(crate) fn of_test(passes: bool) -> Offer<'r>
        ensures { result ≡ tested passes }
    {
        if passes { Offer::Keep } else { Offer::Reject }
    }

    /// The row with the object in the slot; none where it is left out.
    pub(crate) fn one_unless(out: bool, slot: u32, oid: Oid) -> Offer<'r>
        ensures { result ≡ one_unless out slot oid }
    {
        if out {
            Offer::Reject
        } else {
            Offer::One { slot, oid }
        }
    }
}

/// What steps are taken over, and what they make of a row there.
pub(crate) trait Offers {
    /// The edges, values, paths and condition that steps ask for.
    ghost over: { Self → StepsOver };

    /// What the step makes of the row: exactly the rows that meet it and that are the same but in
    /// its slot. No step is counted where it reads no edge. What it reached last is kept.
    fn offer<'r, L: Ledger>(
        &self,
        alloc: Global,
        step: &'r ReadyStep<'_>,
        row: &Row,
        kept: &mut Kept,
        steps: &mut Steps<L>,
    ) -> Result<Offer<'r>, NoMemory>
        requires eight { length row.now ≡ THE_RANGES }
        requires stands { Stands (ready_tree step.now) [] }
        requires ready { CanBeReady (ready_tree step.now) }
        requires found { HasFound (over self.now).labels (over self.now).reaches step.now }
        requires kept { IsKeptBy (over self.now) step.now kept.old }
        ensures kept { IsKeptBy (over self.now) step.now kept.new }
        ensures rows { IfOk result (IsOffer (over self.now) (ready_tree step.now) row.now) }
        ensures quiet { AreQuiet (over self.now) (ready_tree step.now ∷ [])
            → OnOk result (steps.new ≡ steps.old) };
}
