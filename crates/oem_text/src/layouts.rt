ghost use Rattle.std.specs.Prelude.{◌≡◌, ◌+◌, ◌≤◌, ◌<◌, ◌^◌, ◌++◌, length};
ghost use Rattle.std.specs.Prelude.{IfOk, IfErr, OnOk, IfSome, IfNone};
ghost use Rattle.lore_base.specs.Verdicts.{IsClear, IsToldBy};
ghost use Rattle.lorel_trees.specs.Trees.{literal_tree};
ghost use Rattle.oem_text.specs.Types.{LABELS as THE_LABELS};
ghost use Rattle.oem_text.specs.Literals.{numbered};
ghost use Rattle.oem_text.specs.Layouts.{layout_of, IsJoined, edges_from};
ghost use Rattle.oem_text.specs.Layouts.{texts_of, with_texts, count_with, table_of};
ghost use Rattle.oem_text.specs.Parts.{LocalCause, local_order};
ghost use Rattle.oem_text.specs.Faults.{local_refusal};
ghost use Rattle.oem_text.specs.inside.Views.{body_of};

use crate::faults::LocalFault;
use crate::flat::{Flat, Link, flatten};
use crate::label_numbers::LabelNumbers;
use crate::places::{local_of, marked_places, place_links};
use lore_base::{Edge, EdgeBuf, Label, NoMemory, ObjectList, Oid, TryCopy, Value};
use lorel_trees::Literal;
use oem_labels::Guesses;
use std::alloc::Global;
use std::marker::Model;

/// A literal laid out: its objects by place, in the order in which they begin in the text, and its
/// edges between places in text order, each local resolved. Values and labels stay in the literal.
#[derive(Drop)]
pub struct Layout<'a> {
    literals: Vec<&'a Literal>,
    links: Vec<Link<'a>>,
}

impl<'a> Model for Layout<'a> {
    ghost use Rattle.oem_text.specs.Layouts.{LaidOut, IsJoined};
    ghost use Rattle.oem_text.specs.inside.Views.{laid_out};

    ghost Value = { LaidOut };

    ghost view = { λ layout. laid_out layout.literals.items layout.links.items };

    ghost invariant = { λ layout. IsJoined (laid_out layout.literals.items layout.links.items) };
}

/// Lays a literal out. Refused are, in this order, a local that marks two objects
/// (`DuplicateLocal`) and one that is used and marks none (`UndefinedLocal`).
pub fn lay_out<'a>(alloc: Global, literal: &'a Literal) -> Result<Layout<'a>, LocalFault>
    ensures layout { IfOk result (λ layout. layout ≡ layout_of (literal_tree literal.now)) }
    ensures ok { OnOk result (IsClear (LocalCause (literal_tree literal.now)) local_order) }
    ensures err { let cause = LocalCause (literal_tree literal.now) in
        IfErr result (λ fault. IsToldBy cause local_order (local_refusal fault)) }
{
    if let Some(_number) = local_of(literal) {
        return Err(LocalFault::UndefinedLocal);
    }
    let Flat {
        literals,
        mut links,
    } = flatten(alloc, literal)?;
    let Some(places) = marked_places(alloc, literals.as_slice())? else {
        return Err(LocalFault::DuplicateLocal);
    };
    match place_links(links.as_mut_slice(), &places) {
        Some(_) => Err(LocalFault::UndefinedLocal),
        None => Ok(Layout { literals, links }),
    }
}

impl<'a> Layout<'a> {
    /// The number of objects; there is one at least.
    pub fn len(&self) -> u64
        ensures count { result ≡ length self.now.values }
        ensures joined { IsJoined self.now }
    {
        self.literals.len() as u64
    }

    /// Puts the objects, numbered from `next` on in the order of their places, behind those that
    /// are there.
    pub fn put_objects(
        &self,
        alloc: Global,
        next: u64,
        objects: &mut ObjectList,
    ) -> Result<(), NoMemory>
        requires { next + length self.now.values ≤ 2 ^ 32 }
        ensures { OnOk result (objects.new ≡ objects.old ++ numbered next self.now.values) }
    {
        let mut number = next;
        'literals: for literal in &self.literals {
            objects.push((Oid(number as u32), copied_value(alloc, literal)?))?;
            number += 1;
        }
        Ok(())
    }

    /// The edges in text order, where the object at place 0 has the number `next`. Their labels are
    /// numbered, those that have no number yet in the order of their first use. None exactly where
    /// there would be more labels than a table holds.
    pub fn edges(
        &self,
        alloc: Global,
        next: u64,
        numbers: &mut LabelNumbers,
    ) -> Result<Option<EdgeBuf>, NoMemory>
        requires { next + length self.now.values ≤ 2 ^ 32 }
        ensures edges { IfOk result (λ found. IfSome found (λ edges.
            edges ≡ edges_from next (table_of numbers.new) self.now)) }
        ensures labels { IfOk result (λ found. IfSome found (λ _.
            numbers.new ≡ with_texts numbers.old (texts_of self.now))) }
        ensures few { IfOk result (λ found. IfSome found (λ _.
            count_with numbers.old (texts_of self.now) ≤ THE_LABELS)) }
        ensures none { IfOk result (λ found.
            IfNone found (THE_LABELS < count_with numbers.old (texts_of self.now))) }
    {
        let mut edges = EdgeBuf::with_capacity(alloc, self.links.len())?;
        // Nothing is done: `len` tells that there are at most `LABELS`.
        let _count = numbers.len();
        // Members mostly repeat their labels in order.
        let mut guesses = Guesses::new();
        'links: for link in &self.links {
            let Some(label) = numbers.number(link.label, guesses.next())? else {
                return Ok(None);
            };
            guesses.note(label);
            edges.push(edge_at(next, link, label))?;
        }
        Ok(Some(edges))
    }
}

// The edge of these places, where the object at place 0 has the number `next`.
fn edge_at(next: u64, link: &Link, label: Label) -> Edge
    requires parent { next + link.now.parent < 2 ^ 32 }
    requires child { next + link.now.child < 2 ^ 32 }
    ensures parent { result.parent.0 ≡ next + link.now.parent }
    ensures label { result.label ≡ label }
    ensures child { result.child.0 ≡ next + link.now.child }
{
    Edge {
        parent: Oid((next + u64::from(link.parent)) as u32),
        label,
        child: Oid((next + u64::from(link.child)) as u32),
    }
}

// The value of the object that begins with the literal.
fn copied_value(alloc: Global, literal: &Literal) -> Result<Value, NoMemory>
    ensures { IfOk result (λ value. value ≡ (body_of (literal_tree literal.now)).value) }
{
    match literal {
        Literal::Atom { value, .. } => value.try_copy(alloc),
        Literal::Local(_) | Literal::Node { .. } => Ok(Value::Complex),
    }
}
