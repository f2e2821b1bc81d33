ghost use Rattle.std.specs.Prelude.{◌≡◌, []};
ghost use Rattle.lorel_parse.specs.inside.Statements as spec;
ghost use Rattle.lorel_terms.specs.Outcomes.{Reads};

use lore_base::{Mode, ObjectList, OemText, Oid, TextList, Value};
use lorel_terms::{Cursor, ParseFault, label, local, name, new_value};
use lorel_tokens::Kind;
use lorel_trees::{DumpEdges, DumpTree, NamedList};
use std::alloc::Global;

/// A number.
#[tactic(auto, unfolding(crate::specs::inside::Statements::number))]
pub(crate) fn number(tokens: &mut Cursor<'_>) -> Result<i64, ParseFault>
    ensures { Reads (λ value. value) (spec.number tokens.old) result tokens.new }
{
    match tokens.take()? {
        Kind::Number(value) => Ok(*value),
        _ => Err(ParseFault::Syntax),
    }
}

/// How plans are chosen.
#[tactic(auto, unfolding(crate::specs::inside::Statements::mode))]
pub(crate) fn mode(tokens: &mut Cursor<'_>) -> Result<Mode, ParseFault>
    ensures { Reads (λ mode. mode) (spec.mode tokens.old) result tokens.new }
{
    if tokens.eat_word(b"auto") {
        return Ok(Mode::Auto);
    }
    if tokens.eat_word(b"top") {
        return Ok(Mode::Top);
    }
    if tokens.eat_word(b"bottom") {
        return Ok(Mode::Bottom);
    }
    if tokens.eat_word(b"guide") {
        return Ok(Mode::Guided);
    }
    Err(ParseFault::Syntax)
}

#[tactic(auto, unfolding(crate::specs::inside::Statements::oid))]
fn oid(tokens: &mut Cursor<'_>) -> Result<Oid, ParseFault>
    ensures { Reads (λ oid. oid) (spec.oid tokens.old) result tokens.new }
{
    Ok(Oid(local(tokens)?))
}

#[tactic(auto, unfolding(crate::specs::inside::Statements::dump_name))]
fn dump_name(alloc: Global, tokens: &mut Cursor<'_>) -> Result<(OemText, Oid), ParseFault>
    ensures { Reads (λ entry. entry) (spec.dump_name tokens.old) result tokens.new }
{
    let name = name(alloc, tokens)?;
    let oid = oid(tokens)?;
    Ok((name, oid))
}

#[tactic(auto, unfolding(crate::specs::inside::Statements::dump_object))]
fn dump_object(alloc: Global, tokens: &mut Cursor<'_>) -> Result<(Oid, Value), ParseFault>
    ensures { Reads (λ entry. entry) (spec.dump_object tokens.old) result tokens.new }
{
    let oid = oid(tokens)?;
    let value = new_value(alloc, tokens)?;
    Ok((oid, value))
}

#[tactic(auto, unfolding(crate::specs::inside::Statements::dump_edge))]
fn dump_edge(alloc: Global, tokens: &mut Cursor<'_>) -> Result<(Oid, OemText, Oid), ParseFault>
    ensures { Reads (λ edge. edge) (spec.dump_edge tokens.old) result tokens.new }
{
    let parent = oid(tokens)?;
    let label = label(alloc, tokens)?;
    let child = oid(tokens)?;
    Ok((parent, label, child))
}

// Each turn of the loops takes a token, so that there are turns enough.

#[tactic(auto, unfolding(crate::specs::inside::Statements::dump_labels, lorel_terms::specs::Repetitions::each, lorel_terms::specs::Repetitions::each_in))]
fn dump_labels(alloc: Global, tokens: &mut Cursor<'_>) -> Result<TextList, ParseFault>
    ensures { Reads (λ labels. labels) (spec.dump_labels [] tokens.old) result tokens.new }
{
    let mut labels = TextList::new(alloc);
    'turns: for _turn in 0..tokens.len() {
        if !tokens.eat_word(b"label") {
            return Ok(labels);
        }
        labels.push(label(alloc, tokens)?)?;
    }
    Ok(labels)
}

#[tactic(auto, unfolding(crate::specs::inside::Statements::dump_names, lorel_terms::specs::Repetitions::each, lorel_terms::specs::Repetitions::each_in))]
fn dump_names(alloc: Global, tokens: &mut Cursor<'_>) -> Result<NamedList, ParseFault>
    ensures { Reads (λ names. names) (spec.dump_names [] tokens.old) result tokens.new }
{
    let mut names = NamedList::new(alloc);
    'turns: for _turn in 0..tokens.len() {
        if !tokens.eat_word(b"name") {
            return Ok(names);
        }
        names.push(dump_name(alloc, tokens)?)?;
    }
    Ok(names)
}

#[tactic(auto, unfolding(crate::specs::inside::Statements::dump_objects, lorel_terms::specs::Repetitions::each, lorel_terms::specs::Repetitions::each_in))]
fn dump_objects(alloc: Global, tokens: &mut Cursor<'_>) -> Result<ObjectList, ParseFault>
    ensures { Reads (λ objects. objects) (spec.dump_objects [] tokens.old) result tokens.new }
{
    let mut objects = ObjectList::new(alloc);
    'turns: for _turn in 0..tokens.len() {
        if !tokens.eat_word(b"object") {
            return Ok(objects);
        }
        objects.push(dump_object(alloc, tokens)?)?;
    }
    Ok(objects)
}

#[tactic(auto, unfolding(crate::specs::inside::Statements::dump_edges, lorel_terms::specs::Repetitions::each, lorel_terms::specs::Repetitions::each_in))]
fn dump_edges(alloc: Global, tokens: &mut Cursor<'_>) -> Result<DumpEdges, ParseFault>
    ensures { Reads (λ edges. edges) (spec.dump_edges [] tokens.old) result tokens.new }
{
    let mut edges = DumpEdges::new(alloc);
    'turns: for _turn in 0..tokens.len() {
        if !tokens.eat_word(b"edge") {
            return Ok(edges);
        }
        edges.push(dump_edge(alloc, tokens)?)?;
    }
    Ok(edges)
}

// A word and its number.
#[tactic(auto, unfolding(crate::specs::inside::Statements::counted))]
fn counted(tokens: &mut Cursor<'_>, wanted: &[u8]) -> Result<i64, ParseFault>
    ensures { Reads (λ value. value) (spec.counted wanted.now tokens.old) result tokens.new }
{
    tokens.expect_word(wanted)?;
    number(tokens)
}

/// The text of a whole database.
#[tactic(auto, unfolding(crate::specs::inside::Statements::dump_text, crate::specs::inside::Statements::head))]
pub(crate) fn dump_text(alloc: Global, tokens: &mut Cursor<'_>) -> Result<DumpTree, ParseFault>
    ensures { Reads (λ text. text) (spec.dump_text tokens.old) result tokens.new }
{
    let version = counted(tokens, b"oem")?;
    let next = counted(tokens, b"next")?;
    let nodes = counted(tokens, b"nodes")?;
    tokens.expect_word(b"plan")?;
    let mode = mode(tokens)?;
    let (labels, names, objects, edges) = lists(alloc, tokens)?;
    tokens.expect_word(b"end")?;
    Ok(DumpTree {
        version,
        next,
        nodes,
        mode,
        labels,
        names,
        objects,
        edges,
    })
}

type DumpLists = (TextList, NamedList, ObjectList, DumpEdges);

#[tactic(auto, unfolding(crate::specs::inside::Statements::lists))]
fn lists(alloc: Global, tokens: &mut Cursor<'_>) -> Result<DumpLists, ParseFault>
    ensures { Reads (λ l. (l.0, (l.1, (l.2, l.3)))) (spec.lists tokens.old) result tokens.new }
{
    let labels = dump_labels(alloc, tokens)?;
    let names = dump_names(alloc, tokens)?;
    let objects = dump_objects(alloc, tokens)?;
    let edges = dump_edges(alloc, tokens)?;
    Ok((labels, names, objects, edges))
}
