ghost use Rattle.std.specs.Prelude.{IfOk, IfErr, OnOk};
ghost use Rattle.lore_base.specs.Verdicts.{IsClear, IsToldBy};
ghost use Rattle.lorel_trees.specs.Trees.{literal_tree};
ghost use Rattle.oem_text.specs.Parts.{IsPart, LocalCause, PartCause, local_order, part_order};
ghost use Rattle.oem_text.specs.Faults.{local_refusal, text_refusal};

use crate::faults::{LocalFault, TextFault};
use crate::label_numbers::LabelNumbers;
use crate::layouts::lay_out;
use crate::parts::Part;
use lore_base::limits::NEXT_NUMBER;
use lore_base::{ObjectList, Oid};
use lorel_trees::Literal;
use oem_labels::LabelTable;
use std::alloc::Global;

/// Looks whether the locals of a literal are sound. Refused are, in this order, a local that marks
/// two objects (`DuplicateLocal`) and one that is used and marks none (`UndefinedLocal`).
pub fn check_locals(alloc: Global, literal: &Literal) -> Result<(), LocalFault>
    ensures ok { OnOk result (IsClear (LocalCause (literal_tree literal.now)) local_order) }
    ensures err { let cause = LocalCause (literal_tree literal.now) in
        IfErr result (λ fault. IsToldBy cause local_order (local_refusal fault)) }
{
    match lay_out(alloc, literal) {
        Ok(_) => Ok(()),
        Err(fault) => Err(fault),
    }
}

/// What the literal makes, its objects numbered from `next` on. Refused are, in this order, locals
/// that aren't sound (`DuplicateLocal`, `UndefinedLocal`), numbers past the greatest one
/// (`OidsSpent`), and more labels than a table holds (`TooManyLabels`).
pub fn instantiate(
    alloc: Global,
    literal: &Literal,
    next: u64,
    labels: &LabelTable,
) -> Result<Part, TextFault>
    ensures part { IfOk result (λ part. IsPart labels.now next (literal_tree literal.now) part) }
    ensures ok { let cause = PartCause labels.now next (literal_tree literal.now) in
        OnOk result (IsClear cause part_order) }
    ensures err { let cause = PartCause labels.now next (literal_tree literal.now) in
        IfErr result (λ fault. IsToldBy cause part_order (text_refusal fault)) }
{
    let layout = match lay_out(alloc, literal) {
        Ok(layout) => layout,
        Err(LocalFault::DuplicateLocal) => return Err(TextFault::DuplicateLocal),
        Err(LocalFault::UndefinedLocal) => return Err(TextFault::UndefinedLocal),
        Err(LocalFault::NoMemory) => return Err(TextFault::NoMemory),
    };
    if next.saturating_add(layout.len()) > NEXT_NUMBER {
        return Err(TextFault::OidsSpent);
    }
    let Some(mut numbers) = LabelNumbers::new(alloc, labels) else {
        return Err(TextFault::TooManyLabels);
    };
    let Some(added) = layout.edges(alloc, next, &mut numbers)? else {
        return Err(TextFault::TooManyLabels);
    };
    let mut made = ObjectList::with_capacity(alloc, layout.len() as usize)?;
    layout.put_objects(alloc, next, &mut made)?;
    Ok(Part {
        made,
        added,
        labels: numbers.texts(alloc)?,
        root: Oid(next as u32),
    })
}
