ghost use Rattle.std.specs.Prelude.{◌≡◌, ◌≢◌, ℕ, ◌≤◌, ◌<◌, [], ◌∷◌, length, slice_get, Some};
ghost use Rattle.std.specs.Prelude.{IfOk, IfSome, IfNone};
ghost use Rattle.oem_labels.specs.Labels.{label_in};
ghost use Rattle.oem_text.specs.Types.{LABELS as THE_LABELS, Label as TheLabel};
ghost use Rattle.oem_text.specs.Layouts.{table_of, with_texts, count_with};

use lore_base::limits::LABELS;
use lore_base::{Label, NoMemory, OemText, TextList, TryCopy};
use oem_labels::LabelTable;
use std::alloc::Global;
use std::marker::Model;

/// The labels of a table, and behind them those that are to come with a change. Together they are
/// at most `LABELS`.
#[derive(Drop)]
pub struct LabelNumbers<'a> {
    known: &'a LabelTable,
    come: LabelTable,
}

impl<'a> Model for LabelNumbers<'a> {
    ghost use Rattle.oem_text.specs.Layouts.{NumberedTexts};
    ghost use Rattle.oem_text.specs.inside.Views.{numbered_texts, AreNumbered};

    ghost Value = { NumberedTexts };

    ghost view = { λ numbers. numbered_texts numbers.known.now numbers.come };

    ghost invariant = { λ numbers. AreNumbered (numbered_texts numbers.known.now numbers.come) };
}

impl<'a> LabelNumbers<'a> {
    /// The labels of the table alone; None exactly where it has more than `LABELS`. Takes no memory.
    pub fn new(alloc: Global, known: &'a LabelTable) -> Option<LabelNumbers<'a>>
        ensures some { IfSome result (λ numbers. numbers ≡ record { known = known.now; come = [] }) }
        ensures few { IfSome result (λ _. length known.now ≤ THE_LABELS) }
        ensures none { IfNone result (THE_LABELS < length known.now) }
    {
        if known.len() as usize > LABELS {
            return None;
        }
        Some(LabelNumbers {
            known,
            come: LabelTable::new(alloc),
        })
    }

    /// How many labels there are.
    pub fn len(&self) -> usize
        ensures count { result ≡ length (table_of self.now) }
        ensures few { length (table_of self.now) ≤ THE_LABELS }
    {
        self.known.len() as usize + self.come.len() as usize
    }

    /// The label of the text, which is the next new one where no label has it; None exactly where
    /// there would be more than `LABELS` then. The label with the likely number is looked at first.
    pub fn number(&mut self, text: &OemText, likely: usize) -> Result<Option<Label>, NoMemory>
        ensures label { IfOk result (λ found. IfSome found (λ label.
            label ≡ label_in (table_of self.new) text.now)) }
        ensures texts { IfOk result (λ found. IfSome found (λ _.
            self.new ≡ with_texts self.old (text.now ∷ []))) }
        ensures few { IfOk result (λ found. IfSome found (λ _.
            count_with self.old (text.now ∷ []) ≤ THE_LABELS)) }
        ensures none { IfOk result (λ found.
            IfNone found (THE_LABELS < count_with self.old (text.now ∷ []))) }
    {
        if let Some(label) = self.find_at(likely, text) {
            return Ok(Some(label));
        }
        let place = self.known.len() + self.come.len();
        if place as usize >= LABELS {
            return Ok(None);
        }
        self.come.push(text)?;
        Ok(Some(Label(place)))
    }

    // The label that has this text; None exactly where none has it. The likely one is looked at
    // first, so that most texts need no look-up: in the table where it is one of its labels.
    fn find_at(&self, likely: usize, text: &OemText) -> Option<Label>
        ensures found { IfSome result (λ label.
            slice_get (table_of self.now) label.0 ≡ Some text.now) }
        ensures none { IfNone result ((place : ℕ)
            → slice_get (table_of self.now) place ≢ Some text.now) }
    {
        let known = self.known.len() as usize;
        if likely < known {
            if let Some(label) = self.known.find_at(likely, text) {
                return Some(label);
            }
            self.come_at(0, text)
        } else {
            if let Some(label) = self.come_at(likely - known, text) {
                return Some(label);
            }
            self.known.find(text)
        }
    }

    // The same among the labels that are to come, where the likely one is counted from the first
    // of them.
    fn come_at(&self, likely: usize, text: &OemText) -> Option<Label>
        ensures found { IfSome result (λ label.
            slice_get (table_of self.now) label.0 ≡ Some text.now) }
        ensures none { IfNone result ((label : TheLabel)
            → slice_get self.now.come label.0 ≢ Some text.now) }
    {
        let label = self.come.find_at(likely, text)?;
        Some(Label(self.known.len() + label.0))
    }

    /// The texts that are to come, in the order of their labels.
    pub fn texts(&self, alloc: Global) -> Result<TextList, NoMemory>
        ensures texts { IfOk result (λ texts. texts ≡ self.now.come) }
        ensures few { length (table_of self.now) ≤ THE_LABELS }
    {
        let mut texts = TextList::new(alloc);
        'labels: for place in 0..self.come.len() {
            let Some(text) = self.come.text(Label(place)) else {
                unreachable!();
            };
            texts.push(text.try_copy(alloc)?)?;
        }
        Ok(texts)
    }
}
