ghost use Rattle.std.specs.Prelude.{map, IfOk, IfNone, IfSome};
ghost use Rattle.lore_base.specs.Paths.{path_tree, path_trees, trees_of, seq, step};
ghost use Rattle.word_walks.specs.WordWalks.{IsPlainWord, ArePlain, IsItsWord};

use crate::look_ups::{LookUp, look_up, look_up_pattern};
use lore_base::{NoMemory, Path, PathList, Pattern, Word};
use oem_labels::LabelTable;
use std::alloc::Global;

/// The word of a path that is plain labels one after another.
#[derive(Drop)]
pub enum OnlyWord {
    /// These labels, the first one first.
    Labels(Word),
    /// None: the table of labels lacks one of them.
    Lacking,
}

/// The only word that the path spells; None only where the path is something else than plain
/// labels one after another. Its labels are looked up in the table.
pub fn only_word(
    alloc: Global,
    path: &Path,
    labels: &LabelTable,
) -> Result<Option<OnlyWord>, NoMemory>
    ensures word { IfOk result (λ found. IfSome found (IsItsWord labels.now (path_tree path.now))) }
    ensures none { IfOk result (λ found. IfNone found (IsPlainWord (path_tree path.now) → ⊥)) }
{
    match path {
        Path::Step(pattern) => word_of_label(alloc, pattern, labels),
        Path::Seq(parts) => word_of_parts(alloc, parts, labels),
        Path::Any => Ok(None),
        Path::Alt(_) => Ok(None),
        Path::Opt(_) => Ok(None),
        Path::Star(_) => Ok(None),
        Path::Plus(_) => Ok(None),
    }
}

// The word of one label.
fn word_of_label(
    alloc: Global,
    pattern: &Pattern,
    labels: &LabelTable,
) -> Result<Option<OnlyWord>, NoMemory>
    ensures word { IfOk result (λ found. IfSome found (IsItsWord labels.now (step pattern.now))) }
    ensures none { IfOk result (λ found. IfNone found (IsPlainWord (step pattern.now) → ⊥)) }
{
    match look_up_pattern(pattern, labels) {
        LookUp::Found(label) => {
            let mut word = Word::new(alloc);
            word.push(label)?;
            Ok(Some(OnlyWord::Labels(word)))
        }
        LookUp::Lacking => Ok(Some(OnlyWord::Lacking)),
        LookUp::Other => Ok(None),
    }
}

// The word of the parts of a path, one after another.
fn word_of_parts(
    alloc: Global,
    parts: &PathList,
    labels: &LabelTable,
) -> Result<Option<OnlyWord>, NoMemory>
    ensures word { let path = seq (trees_of (path_trees parts.now)) in
        IfOk result (λ found. IfSome found (IsItsWord labels.now path)) }
    ensures none { let path = trees_of (path_trees parts.now) in
        IfOk result (λ found. IfNone found (ArePlain path → ⊥)) }
{
    word_in_turn(alloc, parts.as_slice(), labels)
}

// The same of some paths.
fn word_in_turn(
    alloc: Global,
    parts: &[Path],
    labels: &LabelTable,
) -> Result<Option<OnlyWord>, NoMemory>
    ensures word { let path = seq (trees_of (map path_tree parts.now)) in
        IfOk result (λ found. IfSome found (IsItsWord labels.now path)) }
    ensures none { let path = trees_of (map path_tree parts.now) in
        IfOk result (λ found. IfNone found (ArePlain path → ⊥)) }
{
    let mut word = Word::new(alloc);
    'parts: for part in parts {
        match look_up(part, labels) {
            LookUp::Found(label) => word.push(label)?,
            LookUp::Lacking => return Ok(Some(OnlyWord::Lacking)),
            LookUp::Other => return Ok(None),
        }
    }
    Ok(Some(OnlyWord::Labels(word)))
}
