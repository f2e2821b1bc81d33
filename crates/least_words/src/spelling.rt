ghost use Rattle.std.specs.Prelude.{◌≡◌, ◌≤◌, length, Some, slice_get, reverse, IfOk};
ghost use Rattle.least_words.specs.inside.Groups.{words_of, AreBack};

use crate::groups::Origin;
use lore_base::{Label, NoMemory, Word};
use std::alloc::Global;

// The word of these labels, of which the last one stands first.
fn turned(alloc: Global, labels: &[Label]) -> Result<Word, NoMemory>
    ensures { IfOk result (λ word. word ≡ reverse labels.now) }
{
    let mut word = Word::with_capacity(alloc, labels.len())?;
    'labels: for place in 0..labels.len() {
        word.push(labels[labels.len() - 1 - place])?;
    }
    Ok(word)
}

// The word of the group, spelled back from its origin on.
pub(crate) fn spell(alloc: Global, origins: &[Origin], group: usize) -> Result<Word, NoMemory>
    requires back { AreBack origins.now }
    requires within { group ≤ length origins.now }
    ensures { IfOk result (λ word. slice_get (words_of origins.now) group ≡ Some word) }
{
    let mut labels = Vec::new(alloc);
    let mut at = group;
    'groups: while at > 0 {
        let origin = origins[at - 1];
        labels.push(origin.label)?;
        at = origin.group;
    }
    turned(alloc, labels.as_slice())
}
