ghost use Rattle.std.specs.Prelude.{◌≡◌, ◌≢◌, ◌≤◌, length, map, All, AllPairs, Contains};
ghost use Rattle.std.specs.Prelude.{IfOk, IfSome, IfNone};
ghost use Rattle.dump_text.specs.Types.{LABELS as THE_LABELS};
ghost use Rattle.dump_text.specs.Rules.{numbered_edge};

use lore_base::{Edge, EdgeBuf, NoMemory, OemText, Oid};
use oem_labels::{Guesses, LabelTable};
use std::alloc::Global;

// The labels with their numbers; None exactly where a text stands twice.
pub(crate) fn label_table(alloc: Global, texts: &[OemText]) -> Result<Option<LabelTable>, NoMemory>
    requires { length texts.now ≤ THE_LABELS }
    ensures some { IfOk result (λ found. IfSome found (λ table. table ≡ texts.now)) }
    ensures distinct { IfOk result (λ found.
        IfSome found (λ _. AllPairs (λ a b. a ≢ b) texts.now)) }
    ensures none { IfOk result (λ found.
        IfNone found (¬ AllPairs (λ a b. a ≢ b) texts.now)) }
{
    let mut table = LabelTable::new(alloc);
    'texts: for text in texts {
        match table.find(text) {
            Some(_) => return Ok(None),
            None => table.push(text)?,
        }
    }
    Ok(Some(table))
}

// The edges with the numbers of their labels; None exactly where a label isn't in the table.
pub(crate) fn numbered_edges(
    alloc: Global,
    labels: &LabelTable,
    entries: &[(Oid, OemText, Oid)],
) -> Result<Option<EdgeBuf>, NoMemory>
    requires { AllPairs (λ a b. a ≢ b) labels.now }
    ensures some { IfOk result (λ found. IfSome found (λ edges.
        edges ≡ map (numbered_edge labels.now) entries.now)) }
    ensures labelled { IfOk result (λ found. IfSome found (λ _.
        All (λ entry. Contains labels.now entry.1) entries.now)) }
    ensures none { IfOk result (λ found.
        IfNone found (¬ All (λ entry. Contains labels.now entry.1) entries.now)) }
{
    let mut edges = EdgeBuf::with_capacity(alloc, entries.len())?;
    // Members mostly repeat their labels in order.
    let mut guesses = Guesses::new();
    'entries: for entry in entries {
        let Some(label) = labels.find_at(guesses.next(), &entry.1) else {
            return Ok(None);
        };
        guesses.note(label);
        edges.push(Edge {
            parent: entry.0,
            label,
            child: entry.2,
        })?;
    }
    Ok(Some(edges))
}
