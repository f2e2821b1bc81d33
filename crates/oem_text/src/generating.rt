ghost use Rattle.std.specs.Prelude.{◌≡◌, ◌≤◌, ◌<◌, map, IfOk, IfErr, OnOk, IfSome};
ghost use Rattle.std.specs.Prelude.{IfNone};
ghost use Rattle.lore_base.specs.Verdicts.{IsClear, IsToldBy};
ghost use Rattle.oem_labels.specs.Labels.{label_in};
ghost use Rattle.oem_text.specs.Types.{LABELS as THE_LABELS, SEED, FEWEST_PERSONS, MOST_PERSONS};
ghost use Rattle.oem_text.specs.Layouts.{table_of, with_texts, count_with};
ghost use Rattle.oem_text.specs.Faults.{text_refusal};
ghost use Rattle.oem_text.specs.Generated.{IsGenerated, GeneratedCause, generated_order};
ghost use Rattle.oem_text.specs.Generated.{generated_labels};

use crate::faults::TextFault;
use crate::generated_edges::edges_of;
use crate::generated_objects::objects_of;
use crate::label_numbers::LabelNumbers;
use crate::parts::Part;
use lore_base::limits::NEXT_NUMBER;
use lore_base::{Label, NoMemory, OemText, Oid};
use oem_labels::LabelTable;
use std::alloc::Global;

// In the order in which they are numbered.
const WORDS: [&[u8]; 10] = [
    b"person", b"id", b"name", b"age", b"boss", b"club", b"member", b"leader", b"ring", b"next",
];

/// So many persons, each with an id, a name and an age and each but the first with a boss, ten clubs
/// of them, and a ring of a hundred links, all under one root; `specs/Generated` has the objects and
/// edges in order. The objects, four for each person and 111 more, are numbered from `next` on. The
/// ages follow from the seed.
///
/// Refused are, in this order, numbers past the greatest one (`OidsSpent`), and more labels than a
/// table holds (`TooManyLabels`).
pub fn generated(
    alloc: Global,
    seed: u32,
    count: u32,
    next: u64,
    labels: &LabelTable,
) -> Result<Part, TextFault>
    requires seed { seed ≤ SEED }
    requires count { (FEWEST_PERSONS ≤ count) × (count ≤ MOST_PERSONS) }
    ensures part { IfOk result (λ part. IsGenerated labels.now next seed count part) }
    ensures ok { let cause = GeneratedCause labels.now next count in
        OnOk result (IsClear cause generated_order) }
    ensures err { let cause = GeneratedCause labels.now next count in
        IfErr result (λ fault. IsToldBy cause generated_order (text_refusal fault)) }
{
    let objects = 4 * u64::from(count) + 111;
    if next.saturating_add(objects) > NEXT_NUMBER {
        return Err(TextFault::OidsSpent);
    }
    let Some(mut numbers) = LabelNumbers::new(alloc, labels) else {
        return Err(TextFault::TooManyLabels);
    };
    let words: [&[u8]; 10] = WORDS;
    let Some(numbered) = number_words(alloc, words.as_slice(), &mut numbers)? else {
        return Err(TextFault::TooManyLabels);
    };
    Ok(Part {
        made: objects_of(alloc, seed, count, next)?,
        added: edges_of(alloc, count, next, numbered.as_slice())?,
        labels: numbers.texts(alloc)?,
        root: Oid(next as u32),
    })
}

// The labels of the words, which are those of the database in order; None exactly where there would
// be more labels than a table holds.
fn number_words(
    alloc: Global,
    words: &[&[u8]],
    numbers: &mut LabelNumbers,
) -> Result<Option<Vec<Label>>, NoMemory>
    requires { map (λ word. word.now) words.now ≡ generated_labels }
    ensures labels { IfOk result (λ found. IfSome found (λ labels.
        labels.items ≡ map (label_in (table_of numbers.new)) generated_labels)) }
    ensures texts { IfOk result (λ found. IfSome found (λ _.
        numbers.new ≡ with_texts numbers.old generated_labels)) }
    ensures few { IfOk result (λ found. IfSome found (λ _.
        count_with numbers.old generated_labels ≤ THE_LABELS)) }
    ensures none { IfOk result (λ found.
        IfNone found (THE_LABELS < count_with numbers.old generated_labels)) }
{
    let mut labels = Vec::with_capacity(alloc, words.len())?;
    let mut likely = numbers.len();
    'words: for word in words {
        let text = OemText::from_bytes(alloc, word)?;
        let Some(label) = numbers.number(&text, likely)? else {
            return Ok(None);
        };
        likely = label.0 as usize + 1;
        labels.push(label)?;
    }
    Ok(Some(labels))
}
