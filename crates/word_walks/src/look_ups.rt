ghost use Rattle.std.specs.Prelude.{◌≢◌, AllPairs};
ghost use Rattle.lore_base.specs.Paths.{path_tree, step};
ghost use Rattle.word_walks.specs.Types.{Plain};
ghost use Rattle.word_walks.specs.inside.LookUps.{IsLookedUp};

use lore_base::{Label, OemText, Path, Pattern};
use oem_labels::LabelTable;

// What a table of labels tells of a path.
#[derive(Clone, Copy)]
pub(crate) enum LookUp {
    // It is this label alone.
    Found(Label),
    // It is a label that the table lacks.
    Lacking,
    // It is no plain label.
    Other,
}

// Looks the path up.
pub(crate) fn look_up(path: &Path, labels: &LabelTable) -> LookUp
    ensures { IsLookedUp labels.now (path_tree path.now) result }
{
    match path {
        Path::Step(pattern) => look_up_pattern(pattern, labels),
        Path::Any => LookUp::Other,
        Path::Seq(_) => LookUp::Other,
        Path::Alt(_) => LookUp::Other,
        Path::Opt(_) => LookUp::Other,
        Path::Star(_) => LookUp::Other,
        Path::Plus(_) => LookUp::Other,
    }
}

// The same of one label.
pub(crate) fn look_up_pattern(pattern: &Pattern, labels: &LabelTable) -> LookUp
    ensures { IsLookedUp labels.now (step pattern.now) result }
{
    match pattern {
        Pattern::Plain(text) => look_up_text(text, labels),
        Pattern::Wild(_) => LookUp::Other,
    }
}

// The same of a label with this text.
fn look_up_text(text: &OemText, labels: &LabelTable) -> LookUp
    ensures { IsLookedUp labels.now (step (Plain text.now)) result }
{
    note_distinct(labels);
    match labels.find(text) {
        Some(label) => LookUp::Found(label),
        None => LookUp::Lacking,
    }
}

// The texts of a table of labels are distinct. Nothing is done.
fn note_distinct(labels: &LabelTable)
    ensures { AllPairs (λ a b. a ≢ b) labels.now }
{
    let _count = labels.len();
}
