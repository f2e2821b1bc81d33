ghost use Rattle.std.specs.Prelude.{◌≡◌, ◌≢◌, ◌↔◌, ◌+◌, ◌<◌, ◌^◌, [], ◌∷◌, ◌++◌, length, slice_get, Some};
ghost use Rattle.std.specs.Prelude.{IsTrue, IfSome, IfNone, IfOk, OnOk, OnErr};
ghost use Rattle.std.specs.Option.{option_copied};
ghost use Rattle.oem_labels.specs.Types.{Label as TheLabel};
ghost use Rattle.oem_labels.specs.Labels.{AreLabels, first_uses, LeadsFrom};

use crate::label_plan::LabelPlan;
use crate::patterns::fits;
use indexmap::IndexSet;
use lore_base::{Label, LabelTest, NoMemory, OemText, Pattern, TextList, TryCopy};
use std::alloc::Global;
use std::marker::Model;

/// The texts of labels, each once. A label's number is the place of its text, from 0 on. Contracts
/// see the table as the list of its texts.
#[derive(Drop)]
pub struct LabelTable {
    texts: IndexSet<OemText>,
}

impl Model for LabelTable {
    ghost use Rattle.std.specs.Prelude.{ℕ, List};
    ghost use Rattle.oem_labels.specs.Labels.{AreLabels};

    ghost Value = { List (List ℕ) };

    ghost view = { λ t. t.texts.keys };

    ghost invariant = { λ t. AreLabels t.texts.keys };
}

impl LabelTable {
    /// The table of no text. Takes no memory.
    pub fn new(alloc: Global) -> LabelTable
        ensures { result ≡ [] }
    {
        LabelTable {
            texts: IndexSet::new(alloc),
        }
    }

    /// The number of texts.
    pub fn len(&self) -> u32
        ensures count { result ≡ length self.now }
        ensures sound { AreLabels self.now }
    {
        self.texts.len() as u32
    }

    /// The text of the label; None exactly where the label isn't in the table. Takes no memory.
    pub fn text(&self, label: Label) -> Option<&OemText>
        ensures { option_copied result ≡ slice_get self.now label.0 }
    {
        self.texts.get_index(label.0 as usize)
    }

    /// The label that has this text; None exactly where none has it. Takes no memory.
    pub fn find(&self, text: &OemText) -> Option<Label>
        ensures found { IfSome result (λ label. slice_get self.now label.0 ≡ Some text.now) }
        ensures none { IfNone result ((label : TheLabel)
            → slice_get self.now label.0 ≢ Some text.now) }
    {
        match self.texts.get_index_of(text) {
            Some(place) => Some(Label(place as u32)),
            None => None,
        }
    }

    /// The same, with one place looked at first, or place 0 where there are not so many.
    pub fn find_at(&self, likely: usize, text: &OemText) -> Option<Label>
        ensures found { IfSome result (λ label. slice_get self.now label.0 ≡ Some text.now) }
        ensures none { IfNone result ((label : TheLabel)
            → slice_get self.now label.0 ≢ Some text.now) }
    {
        let first = if likely < self.texts.len() { likely } else { 0 };
        if let Some(there) = self.texts.get_index(first) {
            if there == text {
                return Some(Label(first as u32));
            }
        }
        self.find(text)
    }

    /// Gives a text that no label has the next number. Where memory is refused the table stays as
    /// it is.
    pub fn push(&mut self, text: &OemText) -> Result<(), NoMemory>
        requires new { (label : TheLabel) → slice_get self.old label.0 ≢ Some text.now }
        requires few { length self.old + 1 < 2 ^ 32 }
        ensures ok { OnOk result (self.new ≡ self.old ++ text.now ∷ []) }
        ensures err { OnErr result (self.new ≡ self.old) }
    {
        let copy = text.try_copy(*self.texts.allocator())?;
        self.texts.insert(copy)?;
        Ok(())
    }

    /// The texts that aren't in the table, each once, in the order of their first use. The table
    /// stays as it is. A number of 32 bits counts the labels that there are then.
    pub fn plan_new(&self, texts: &TextList) -> Result<LabelPlan, NoMemory>
        requires few { length self.now + length (first_uses self.now texts.now) < 2 ^ 32 }
        ensures come { IfOk result (λ plan. plan.come ≡ first_uses self.now texts.now) }
        ensures leads { IfOk result (λ plan. LeadsFrom self.now plan) }
    {
        if self.has_all(texts.as_slice()) {
            return Ok(LabelPlan {
                whole: None,
                known: 0,
            });
        }
        let mut whole = self.copied()?;
        whole.add_all(texts.as_slice())?;
        Ok(LabelPlan {
            whole: Some(whole),
            known: self.texts.len(),
        })
    }

    /// Puts the texts of the plan behind those that are there. Takes no memory.
    pub fn commit_new(&mut self, plan: LabelPlan)
        requires { LeadsFrom self.old plan }
        ensures { self.new ≡ self.old ++ plan.come }
    {
        if let Some(whole) = plan.whole {
            *self = whole;
        }
    }

    // Whether each of the texts is in the table.
    fn has_all(&self, texts: &[OemText]) -> bool
        ensures { IsTrue result ↔ (first_uses self.now texts.now ≡ []) }
    {
        'texts: for text in texts {
            match self.find(text) {
                Some(_) => {}
                None => return false,
            }
        }
        true
    }

    // The same table once more.
    fn copied(&self) -> Result<LabelTable, NoMemory>
        ensures { IfOk result (λ copy. copy ≡ self.now) }
    {
        let mut copy = LabelTable {
            texts: IndexSet::with_capacity(*self.texts.allocator(), self.texts.len())?,
        };
        copy.add_all(self.texts.as_slice())?;
        Ok(copy)
    }

    // Numbers the text where it isn't in the table.
    fn add(&mut self, text: &OemText) -> Result<(), NoMemory>
        requires { length self.old + length (first_uses self.old (text.now ∷ [])) < 2 ^ 32 }
        ensures { OnOk result (self.new ≡ self.old ++ first_uses self.old (text.now ∷ [])) }
    {
        match self.find(text) {
            Some(_) => Ok(()),
            None => self.push(text),
        }
    }

    // Numbers those of the texts that aren't in the table, in the order of their first use.
    fn add_all(&mut self, texts: &[OemText]) -> Result<(), NoMemory>
        requires { length self.old + length (first_uses self.old texts.now) < 2 ^ 32 }
        ensures { OnOk result (self.new ≡ self.old ++ first_uses self.old texts.now) }
    {
        'texts: for text in texts {
            self.add(text)?;
        }
        Ok(())
    }
}

impl LabelTest for LabelTable {
    ghost texts = { λ t. t };

    fn matches(&self, label: Label, pattern: &Pattern) -> bool {
        match self.text(label) {
            Some(text) => fits(pattern, text),
            None => false,
        }
    }
}
