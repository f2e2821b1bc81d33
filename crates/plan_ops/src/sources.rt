ghost use Rattle.std.specs.Prelude.{IfOk, IfSome};
ghost use Rattle.index_traits.specs.PartRows.{AreAllThatFit};
ghost use Rattle.plan_laws.specs.Steps.{steps_over};

use crate::kept::Kept;
use crate::offers::{Offer, Offers};
use crate::ready_steps::ReadyStep;
use crate::step_objects::{along_route, along_word, candidates, leading_to, leading_to_some};
use index_traits::{Adjacent, Links, Paths, Row, RowTest, Values};
use lore_base::limits::RANGES;
use lore_base::{NoMemory, OidBuf, Steps};
use oem_labels::LabelTable;
use row_hints::{Hints, is_among};
use std::alloc::Global;
use std::sync::ledger::Ledger;

/// What rows are found of.
#[derive(Drop)]
pub(crate) struct Sources<'a, A, K, V, P, T> {
    pub(crate) graph: &'a A,
    pub(crate) links: &'a K,
    pub(crate) values: &'a V,
    pub(crate) paths: &'a P,
    pub(crate) test: &'a T,
    // Holds of each row that comes of the plan and passes the test.
    pub(crate) hints: &'a T,
    // From this slot on the test alone is asked whether a row is ruled out, to save walks; None: the
    // hints are never asked.
    pub(crate) late: Option<u32>,
    pub(crate) labels: &'a LabelTable,
}

impl<'a, A: Adjacent, K: Links, V: Values, P: Paths, T: RowTest> Offers
    for Sources<'a, A, K, V, P, T> {
    ghost over = { λ sources. steps_over sources.labels.now (A.edges sources.graph.now)
        (K.edges sources.links.now) (V.entries sources.values.now) (P.reaches sources.paths.now)
        (T.passes sources.test.now) };

    fn offer<'r, L: Ledger>(
        &self,
        alloc: Global,
        step: &'r ReadyStep<'_>,
        row: &Row,
        kept: &mut Kept,
        steps: &mut Steps<L>,
    ) -> Result<Offer<'r>, NoMemory> {
        match step {
            ReadyStep::Forward { start, route, slot } => {
                let from = start.object(row);
                along_route(
                    alloc,
                    self.graph,
                    self.labels,
                    route,
                    from,
                    *slot,
                    kept,
                    steps,
                )
            }
            ReadyStep::AlongWord {
                start,
                word,
                slot,
                ..
            } => along_word(
                alloc,
                self.graph,
                word,
                start.object(row),
                *slot,
                kept,
                steps,
            ),
            ReadyStep::FromGuide { objects, slot, .. } => {
                Ok(Offer::Lend {
                    slot: *slot,
                    oids: objects,
                })
            }
            ReadyStep::FromValue {
                label,
                op,
                value,
                rest,
                slot,
            } => {
                let ends = candidates(alloc, self.values, *label, *op, value)?;
                let oids = leading_to_some(alloc, self.links, self.labels, rest, &ends, steps)?;
                Ok(Offer::Fill { slot: *slot, oids })
            }
            ReadyStep::Backward { child, way, parent } => {
                let to = row.get(*child);
                let oids = leading_to(alloc, self.links, self.labels, way, to, steps)?;
                Ok(Offer::Fill {
                    slot: *parent,
                    oids,
                })
            }
            ReadyStep::Check { child, way, named } => {
                let to = row.get(*child);
                let oids = leading_to(alloc, self.links, self.labels, way, to, steps)?;
                Ok(Offer::of_test(is_among(&oids, *named)))
            }
            ReadyStep::Filter => Ok(Offer::of_test(self.test.holds(alloc, row, steps)?)),
        }
    }
}

impl<'a, A: Adjacent, K: Links, V: Values, P: Paths, T: RowTest> Hints
    for Sources<'a, A, K, V, P, T> {
    ghost hints = { λ sources row. T.passes sources.test.now row × T.passes sources.hints.now row };

    fn rules_out<L: Ledger>(
        &self,
        alloc: Global,
        known: &[bool; RANGES],
        row: &Row,
        steps: &mut Steps<L>,
    ) -> Result<bool, NoMemory> {
        if knows_from(known, self.late) {
            return self.test.rules_out(alloc, known, row, steps);
        }
        self.hints.rules_out(alloc, known, row, steps)
    }

    fn fitting<L: Ledger>(
        &self,
        alloc: Global,
        known: &[bool; RANGES],
        slot: u32,
        row: &Row,
        steps: &mut Steps<L>,
    ) -> Result<Option<OidBuf>, NoMemory> {
        match self.test.fitting(alloc, known, slot, row, steps)? {
            Some(fit) => Ok(Some(fit)),
            None => fitting_by_hints(self, alloc, known, slot, row, steps),
        }
    }
}

// The objects that fit by the hints, where they are asked.
fn fitting_by_hints<A, K, V, P, T: RowTest, L: Ledger>(
    sources: &Sources<'_, A, K, V, P, T>,
    alloc: Global,
    known: &[bool; RANGES],
    slot: u32,
    row: &Row,
    steps: &mut Steps<L>,
) -> Result<Option<OidBuf>, NoMemory>
    ensures { IfOk result (λ found. IfSome found (λ oids.
        AreAllThatFit (T.passes sources.now.hints.now) known.now slot row.now oids)) }
{
    if sources.late.is_none() {
        return Ok(None);
    }
    sources.hints.fitting(alloc, known, slot, row, steps)
}

// Whether the hints are never asked, or this slot or a later one is known.
fn knows_from(known: &[bool; RANGES], late: Option<u32>) -> bool {
    let Some(late) = late else {
        return true;
    };
    'slots: for slot in 0..RANGES {
        if known[slot] && late as usize <= slot {
            return true;
        }
    }
    false
}
