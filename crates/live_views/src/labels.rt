ghost use Rattle.std.specs.Prelude.{◌≡◌, ◌⊎◌, ◌↔◌, ℕ, List, ◌∷◌, [], ◌++◌, false, Contains, IsTrue};
ghost use Rattle.std.specs.Prelude.{IfOk, OnOk, slice_get};
ghost use Rattle.std.specs.Option.{option_copied};
ghost use Rattle.lorel_ranges.specs.Views.{texts};
ghost use Rattle.live_views.specs.Types.{Edge as TheEdge};
ghost use Rattle.live_views.specs.inside.Touched.{turned, IsTextAmong, IsNoted, HasFound};

use lore_base::{Delta, Edge, Label, NoMemory, OemText, TextList};
use oem_labels::LabelTable;
use std::alloc::Global;

// The texts of labels: those of the table, and then the new ones.
#[derive(Drop)]
struct AllLabels<'a> {
    labels: &'a LabelTable,
    new_labels: &'a [OemText],
}

impl<'a> AllLabels<'a> {
    // The text of the label; None exactly where there are not so many.
    fn text(&self, label: Label) -> Option<&'a OemText>
        ensures { option_copied result
            ≡ slice_get (self.now.labels.now ++ self.now.new_labels.now) label.0 }
    {
        let known = self.labels.len();
        if label.0 < known {
            let labels = self.labels;
            return labels.text(label);
        }
        let new_labels = self.new_labels;
        new_labels.get((label.0 - known) as usize)
    }

    // How many there are.
    fn count(&self) -> usize {
        (self.labels.len() as usize).saturating_add(self.new_labels.len())
    }
}

// The texts of the labels of edges as they are found. A label that is noted has been met before.
#[derive(Drop)]
pub(crate) struct LabelTexts<'a> {
    pub noted: Vec<bool>,
    pub found: Vec<&'a OemText>,
}

// The texts of the labels of edges that go or come.
pub(crate) fn label_texts<'a>(
    alloc: Global,
    delta: &Delta,
    labels: &'a LabelTable,
    new_labels: &'a TextList,
) -> Result<Vec<&'a OemText>, NoMemory>
    ensures { IfOk result (λ found. (text : List ℕ) → Contains (texts found.items) text
        ↔ IsTextAmong (labels.now ++ new_labels.now) (turned delta.now) text) }
{
    let all = AllLabels {
        labels,
        new_labels: new_labels.as_slice(),
    };
    let mut texts = LabelTexts::new(alloc, all.count())?;
    texts.add_edges(&all, delta.edges_gone.as_slice())?;
    texts.add_edges(&all, delta.edges_come.as_slice())?;
    let LabelTexts {
        noted: _noted,
        found,
    } = texts;
    Ok(found)
}

impl<'a> LabelTexts<'a> {
    // No text yet, with room to note so many labels.
    fn new(alloc: Global, count: usize) -> Result<LabelTexts<'a>, NoMemory>
        ensures { IfOk result (λ none. (labels : List (List ℕ)) → HasFound labels [] none) }
    {
        Ok(LabelTexts {
            noted: vec![in alloc; false; count]?,
            found: Vec::new(alloc),
        })
    }

    fn add_edges(&mut self, all: &AllLabels<'a>, edges: &[Edge]) -> Result<(), NoMemory>
        ensures { OnOk result ((earlier : List TheEdge)
            → HasFound (all.now.labels.now ++ all.now.new_labels.now) earlier self.old
            → HasFound (all.now.labels.now ++ all.now.new_labels.now) (earlier ++ edges.now)
            self.new) }
    {
        'edges: for edge in edges {
            self.add_edge(all, *edge)?;
        }
        Ok(())
    }

    fn add_edge(&mut self, all: &AllLabels<'a>, edge: Edge) -> Result<(), NoMemory>
        ensures { OnOk result ((earlier : List TheEdge)
            → HasFound (all.now.labels.now ++ all.now.new_labels.now) earlier self.old
            → HasFound (all.now.labels.now ++ all.now.new_labels.now) (earlier ++ edge ∷ [])
            self.new) }
    {
        if !note(&mut self.noted, edge.label) {
            return Ok(());
        }
        if let Some(text) = all.text(edge.label) {
            self.found.push(text)?;
        }
        Ok(())
    }
}

// Notes the label, where there is room for it; whether it wasn't noted.
fn note(noted: &mut Vec<bool>, label: Label) -> bool
    ensures before { result ≡ false → IsNoted noted.old.items label.0 }
    ensures now { (place : ℕ) → IsNoted noted.new.items place
        → IsNoted noted.old.items place ⊎ (IsTrue result × (place ≡ label.0)) }
{
    let place = label.0 as usize;
    if place < noted.len() {
        if noted[place] {
            return false;
        }
        noted[place] = true;
    }
    true
}
