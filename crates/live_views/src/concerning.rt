ghost use Rattle.std.specs.Prelude.{◌↔◌, ◌⊎◌, ℕ, List, Contains, IsTrue};
ghost use Rattle.lore_base.specs.ChangeSets.{IsBound};
ghost use Rattle.oem_labels.specs.Labels.{TextFits};
ghost use Rattle.lorel_ranges.specs.Views.{texts};
ghost use Rattle.live_views.specs.Types.{Pattern as ThePattern};

use crate::steps::StepPatterns;
use lore_base::{Delta, Names, OemText, Pattern};
use oem_labels::fits;

// Whether one of the names goes or comes.
pub(crate) fn some_turned(delta: &Delta, names: &[OemText]) -> bool
    ensures { IsTrue result ↔ ((name : List ℕ) × Contains names.now name
        × (IsBound delta.now.names_gone name ⊎ IsBound delta.now.names_come name)) }
{
    'names: for name in names {
        if is_turned(delta, name) {
            return true;
        }
    }
    false
}

// Whether the name goes or comes.
fn is_turned(delta: &Delta, name: &OemText) -> bool
    ensures { IsTrue result
        ↔ (IsBound delta.now.names_gone name.now ⊎ IsBound delta.now.names_come name.now) }
{
    is_bound(&delta.names_gone, name) || is_bound(&delta.names_come, name)
}

// Whether the name is bound.
fn is_bound(names: &Names, name: &OemText) -> bool
    ensures { IsTrue result ↔ IsBound names.now name.now }
{
    if names.len() == 0 {
        return false;
    }
    match names.find(name) {
        Some(_) => true,
        None => false,
    }
}

// Whether one of the steps takes the label of some edge, where there is an edge or not, and the
// labels of all edges have these texts.
pub(crate) fn takes_some(steps: &StepPatterns, edges: bool, labels: &[&OemText]) -> bool
    ensures { IsTrue result ↔ ((IsTrue steps.now.any × IsTrue edges)
        ⊎ ((pattern : ThePattern) × Contains steps.now.patterns pattern
        × ((text : List ℕ) × Contains (texts labels.now) text × TextFits pattern text))) }
{
    (steps.any && edges) || some_fit(steps.patterns.as_slice(), labels)
}

// Whether one of the texts fits one of the patterns.
fn some_fit(patterns: &[Pattern], labels: &[&OemText]) -> bool
    ensures { IsTrue result ↔ ((pattern : ThePattern) × Contains patterns.now pattern
        × ((text : List ℕ) × Contains (texts labels.now) text × TextFits pattern text)) }
{
    'patterns: for pattern in patterns {
        if fits_some(pattern, labels) {
            return true;
        }
    }
    false
}

// Whether one of the texts fits the pattern.
fn fits_some(pattern: &Pattern, labels: &[&OemText]) -> bool
    ensures { IsTrue result
        ↔ ((text : List ℕ) × Contains (texts labels.now) text × TextFits pattern.now text) }
{
    'labels: for text in labels {
        if fits(pattern, *text) {
            return true;
        }
    }
    false
}
