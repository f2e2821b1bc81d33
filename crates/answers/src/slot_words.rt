ghost use Rattle.std.specs.Prelude.{◌≡◌, ◌≤◌, ◌<◌, IfOk, IfSome};
ghost use Rattle.lore_base.specs.Paths.{path_tree, leaves};
ghost use Rattle.lorel_bound.specs.Runnable.{IsWithin};
ghost use Rattle.lorel_bound.specs.SlotRows.{StartsAt};
ghost use Rattle.answers.specs.Types.{RANGES as THE_RANGES};
ghost use Rattle.path_expr.specs.Types.{LEAVES};
ghost use Rattle.answers.specs.inside.Words.{AreWordsFrom, HasWord};

use index_traits::{Adjacent, Row};
use least_words::LeastWords;
use lore_base::{NoMemory, Oid, Steps, Word};
use lorel_bound::Range;
use oem_labels::LabelTable;
use path_expr::Automaton;
use std::alloc::Global;
use std::marker::Model;
use std::sync::ledger::Ledger;

// The least words that lead along a range to the object in its slot. Those from the object that the
// range last started at are kept, since one search serves all rows that start there.
#[derive(Drop)]
pub(crate) struct SlotWords<'a, A: Adjacent> {
    graph: &'a A,
    labels: &'a LabelTable,
    range: &'a Range,
    slot: u32,
    automaton: Automaton,
    kept: Option<(Oid, LeastWords)>,
}

impl<'a, A: Adjacent> Model for SlotWords<'a, A> {
    ghost use Rattle.std.specs.Prelude.{◌<◌, IfSome};
    ghost use Rattle.std.specs.Coded.{codes};
    ghost use Rattle.lore_base.specs.Paths.{path_tree};
    ghost use Rattle.lore_base.specs.contracts.paths.Path as path_contract;
    ghost use Rattle.path_expr.specs.Machines.{Recognises};
    ghost use Rattle.lorel_bound.specs.Runnable.{IsWithin};
    ghost use Rattle.answers.specs.Types.{RANGES};
    ghost use Rattle.answers.specs.inside.Words.{WordsOver, AreWordsFrom};

    ghost Value = { WordsOver };

    ghost coded = { Prim.hlevel (codes, path_contract.the_row.coded) };

    ghost view = { λ words. record {
      labels = words.labels.now;
      edges = A.edges words.graph.now;
      range = words.range.now;
      slot = words.slot;
    } };

    ghost invariant = { λ words.
        let path = path_tree words.range.now.path in
        (words.slot < RANGES) × IsWithin RANGES words.range.now.start
        × Recognises words.automaton path
        × IfSome words.kept (λ kept.
        AreWordsFrom words.labels.now (A.edges words.graph.now) path kept.0 kept.1) };
}

impl<'a, A: Adjacent> SlotWords<'a, A> {
    pub(crate) fn new(
        alloc: Global,
        graph: &'a A,
        labels: &'a LabelTable,
        range: &'a Range,
        slot: u32,
    ) -> Result<SlotWords<'a, A>, NoMemory>
        requires slot { slot < THE_RANGES }
        requires start { IsWithin THE_RANGES range.now.start }
        requires leaves { leaves (path_tree range.now.path) ≤ LEAVES }
        ensures { IfOk result (λ words. words ≡ record {
          labels = labels.now;
          edges = A.edges graph.now;
          range = range.now;
          slot = slot;
        }) }
    {
        Ok(SlotWords {
            graph,
            labels,
            range,
            slot,
            automaton: Automaton::build(alloc, &range.path)?,
            kept: None,
        })
    }

    // The object that the range starts at.
    pub(crate) fn start(&self, row: &Row) -> Oid
        ensures { StartsAt row.now self.now.range.start result }
    {
        self.range.start.object(row)
    }

    // The least word to the object in the slot; None where the range doesn't lead there.
    pub(crate) fn word<L: Ledger>(
        &mut self,
        alloc: Global,
        row: &Row,
        steps: &mut Steps<L>,
    ) -> Result<Option<Word>, NoMemory>
        ensures same { self.new ≡ self.old }
        ensures word { IfOk result (HasWord self.old row.now) }
    {
        let from = self.start(row);
        let to = row.get(self.slot);
        if let Some(words) = self.kept_from(from) {
            return words.word(alloc, to);
        }
        let words = LeastWords::new(alloc, self.graph, from, &self.automaton, self.labels, steps)?;
        let word = words.word(alloc, to);
        self.kept = Some((from, words));
        word
    }

    // The words that are kept, if they lead from this object.
    fn kept_from(&self, from: Oid) -> Option<&LeastWords>
        ensures { IfSome result (λ words. AreWordsFrom self.now.labels self.now.edges
            (path_tree self.now.range.path) from words.now) }
    {
        match &self.kept {
            Some((start, words)) if *start == from => Some(words),
            _ => None,
        }
    }
}
