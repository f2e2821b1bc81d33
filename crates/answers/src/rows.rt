ghost use Rattle.std.specs.Prelude.{◌≡◌, ◌⊎◌, List, MatchOption, IfOk, OnOk};
ghost use Rattle.answers.specs.Types.{Oid as TheOid};
ghost use Rattle.answers.specs.Asked.{ShowsAsked, AreRows, AreTooMany};
ghost use Rattle.lorel_bound.specs.Bound.{bound_tree};
ghost use Rattle.lorel_bound.specs.Runnable.{IsRunnable};
ghost use Rattle.lorel_bound.specs.Plans.{steps_of};
ghost use Rattle.lorel_bound.specs.SlotRows.{ShowsObjects};
ghost use Rattle.plan_laws.specs.Steps.{steps_over};
ghost use Rattle.plan_ops.specs.Rows.{IsToCome, ReadNothing};

use crate::shown_rows::ShownRows;
use index_traits::{Adjacent, Links, Paths, RowTest, Values};
use lore_base::{NoMemory, Steps};
use lorel_bound::{Answer, Bound};
use oem_labels::LabelTable;
use plan_ops::Rows;
use std::alloc::Global;
use std::sync::ledger::Ledger;

/// What the cells of a bound select show of the rows of slots that are to come: each row once, in
/// their order; None exactly where there are more than `ROWS`, or more than `PATH_LABELS` labels in
/// their words.
///
/// No step is counted where the plan reads no edge, and either no cell shows a word or no row comes.
pub fn all_rows<A: Adjacent, K: Links, V: Values, P: Paths, T: RowTest, L: Ledger>(
    alloc: Global,
    rows: &mut Rows<'_, A, K, V, P, T>,
    bound: &Bound,
    graph: &A,
    labels: &LabelTable,
    steps: &mut Steps<L>,
) -> Result<Option<Answer>, NoMemory>
    requires runnable { IsRunnable (bound_tree bound.now) }
    ensures rows { let over = steps_over rows.old.labels (A.edges rows.old.graph) (K.edges rows.old.links)
        (V.entries rows.old.values) (P.reaches rows.old.paths) (T.passes rows.old.test) in
        let shown = ShowsAsked labels.now (A.edges graph.now) (bound_tree bound.now)
        (IsToCome over (steps_of rows.old.plan) rows.old.partials) in
        IfOk result (λ answer. MatchOption answer (AreTooMany shown) (AreRows shown)) }
    ensures quiet { let over = steps_over rows.old.labels (A.edges rows.old.graph) (K.edges rows.old.links)
        (V.entries rows.old.values) (P.reaches rows.old.paths) (T.passes rows.old.test) in
        ReadNothing over (steps_of rows.old.plan) rows.old.partials
        → ShowsObjects (bound_tree bound.now)
        ⊎ ((slots : List TheOid) → IsToCome over (steps_of rows.old.plan) rows.old.partials slots → ⊥)
        → OnOk result (steps.new ≡ steps.old) }
{
    let mut shown = ShownRows::new(alloc, bound, graph, labels)?;
    'rows: while let Some(row) = rows.next(alloc, steps)? {
        if shown.add(alloc, row, steps)? {
            return Ok(None);
        }
    }
    shown.take_answer(alloc, steps)
}
