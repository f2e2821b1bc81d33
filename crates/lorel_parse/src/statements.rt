ghost use Rattle.std.specs.Prelude.{◌≡◌, []};
ghost use Rattle.lorel_trees.specs.Trees.{rooted_tree, statement_tree};
ghost use Rattle.lorel_parse.specs.inside.Statements as spec;
ghost use Rattle.lorel_terms.specs.Outcomes.{Reads};

use crate::dump_texts::{dump_text, mode, number};
use crate::histories::keeping;
use crate::targets::aimed;
use lore_base::limits::NESTING;
use lore_base::{OemText, TextList};
use lorel_terms::{
    Cursor, ParseFault, label, literal, name, new_value, rooted, sees_name, select, tail,
};
use lorel_tokens::{Kind, Sign};
use lorel_trees::{LabelPath, Rooted, Statement};
use std::alloc::Global;

/// A statement, by its first word.
#[tactic(auto, unfolding(crate::specs::inside::Statements::statement, crate::specs::inside::Statements::word))]
pub(crate) fn statement(alloc: Global, tokens: &mut Cursor<'_>) -> Result<Statement, ParseFault>
    ensures { Reads statement_tree (spec.statement tokens.old) result tokens.new }
{
    match tokens.take()? {
        Kind::Word(text) => changing(alloc, tokens, text.as_bytes()),
        _ => Err(ParseFault::Syntax),
    }
}

// The forms that change the database, or another form that this word begins.
#[tactic(auto, unfolding(crate::specs::inside::Statements::changing, crate::specs::inside::Statements::unname, crate::specs::inside::Statements::update))]
fn changing(alloc: Global, tokens: &mut Cursor<'_>, first: &[u8]) -> Result<Statement, ParseFault>
    ensures { Reads statement_tree (spec.changing first.now tokens.old) result tokens.new }
{
    if first == b"load".as_slice() {
        return load(alloc, tokens);
    }
    if first == b"name".as_slice() {
        return bind(alloc, tokens);
    }
    if first == b"unname".as_slice() {
        let name = name(alloc, tokens)?;
        return Ok(Statement::Unname { name });
    }
    if first == b"update".as_slice() {
        let path = rooted(alloc, tokens, NESTING)?;
        return changed(alloc, tokens, path);
    }
    asking(alloc, tokens, first)
}

// The forms that ask, or another form that this word begins.
#[tactic(auto, unfolding(crate::specs::inside::Statements::asking, crate::specs::inside::Statements::select, crate::specs::inside::Statements::explain, crate::specs::inside::Statements::browse))]
fn asking(alloc: Global, tokens: &mut Cursor<'_>, first: &[u8]) -> Result<Statement, ParseFault>
    ensures { Reads statement_tree (spec.asking first.now tokens.old) result tokens.new }
{
    if first == b"select".as_slice() {
        return Ok(Statement::Select(select(alloc, tokens)?));
    }
    if first == b"explain".as_slice() {
        tokens.expect_word(b"select")?;
        return Ok(Statement::Explain(select(alloc, tokens)?));
    }
    if first == b"guide".as_slice() {
        return Ok(Statement::Guide);
    }
    if first == b"browse".as_slice() {
        return Ok(Statement::Browse(label_path(alloc, tokens)?));
    }
    if first == b"sample".as_slice() {
        return sample(alloc, tokens);
    }
    administering(alloc, tokens, first)
}

// The forms that set limits, dump, restore and make data, or another form that this word begins.
#[tactic(auto, unfolding(crate::specs::inside::Statements::administering, crate::specs::inside::Statements::restore))]
fn administering(
    alloc: Global,
    tokens: &mut Cursor<'_>,
    first: &[u8],
) -> Result<Statement, ParseFault>
    ensures { Reads statement_tree (spec.administering first.now tokens.old) result tokens.new }
{
    if first == b"set".as_slice() {
        return set(tokens);
    }
    if first == b"dump".as_slice() {
        return Ok(Statement::Dump);
    }
    if first == b"restore".as_slice() {
        return Ok(Statement::Restore(dump_text(alloc, tokens)?));
    }
    if first == b"generate".as_slice() {
        return generate(tokens);
    }
    keeping(alloc, tokens, first)
}

#[tactic(auto, unfolding(crate::specs::inside::Statements::load))]
fn load(alloc: Global, tokens: &mut Cursor<'_>) -> Result<Statement, ParseFault>
    ensures { Reads statement_tree (spec.load tokens.old) result tokens.new }
{
    let name = name(alloc, tokens)?;
    tokens.expect(Sign::Assign)?;
    let literal = literal(alloc, tokens, NESTING)?;
    Ok(Statement::Load { name, literal })
}

#[tactic(auto, unfolding(crate::specs::inside::Statements::bind))]
fn bind(alloc: Global, tokens: &mut Cursor<'_>) -> Result<Statement, ParseFault>
    ensures { Reads statement_tree (spec.bind tokens.old) result tokens.new }
{
    let name = name(alloc, tokens)?;
    tokens.expect(Sign::Assign)?;
    let path = rooted(alloc, tokens, NESTING)?;
    Ok(Statement::Name { name, path })
}

// What stands behind the path of an update. The target of `+=` and `-=` is the path without its
// last label.
#[tactic(auto, unfolding(crate::specs::inside::Statements::changed))]
fn changed(alloc: Global, tokens: &mut Cursor<'_>, path: Rooted) -> Result<Statement, ParseFault>
    ensures { Reads statement_tree (spec.changed (rooted_tree path) tokens.old) result tokens.new }
{
    if tokens.eat(Sign::Assign) {
        return assigned(alloc, tokens, path);
    }
    if tokens.eat(Sign::PlusAssign) {
        let (target, label) = aimed(path)?;
        return added(alloc, tokens, target, label);
    }
    tokens.expect(Sign::MinusAssign)?;
    let (target, label) = aimed(path)?;
    removed(alloc, tokens, target, label)
}

#[tactic(auto, unfolding(crate::specs::inside::Statements::assigned))]
fn assigned(alloc: Global, tokens: &mut Cursor<'_>, target: Rooted) -> Result<Statement, ParseFault>
    ensures { let path = rooted_tree target in
        Reads statement_tree (spec.assigned path tokens.old) result tokens.new }
{
    let value = new_value(alloc, tokens)?;
    let tail = tail(alloc, tokens)?;
    Ok(Statement::Assign {
        target,
        value,
        tail,
    })
}

// A path begins with a name, and no literal does.
#[tactic(auto, unfolding(crate::specs::inside::Statements::added))]
fn added(
    alloc: Global,
    tokens: &mut Cursor<'_>,
    target: Rooted,
    label: OemText,
) -> Result<Statement, ParseFault>
    ensures { let path = rooted_tree target in
        Reads statement_tree (spec.added path label tokens.old) result tokens.new }
{
    if sees_name(tokens) {
        let right = rooted(alloc, tokens, NESTING)?;
        let tail = tail(alloc, tokens)?;
        return Ok(Statement::AddLink {
            target,
            label,
            right,
            tail,
        });
    }
    let literal = literal(alloc, tokens, NESTING)?;
    let tail = tail(alloc, tokens)?;
    Ok(Statement::AddNew {
        target,
        label,
        literal,
        tail,
    })
}

#[tactic(auto, unfolding(crate::specs::inside::Statements::removed))]
fn removed(
    alloc: Global,
    tokens: &mut Cursor<'_>,
    target: Rooted,
    label: OemText,
) -> Result<Statement, ParseFault>
    ensures { let path = rooted_tree target in
        Reads statement_tree (spec.removed path label tokens.old) result tokens.new }
{
    let right = rooted(alloc, tokens, NESTING)?;
    let tail = tail(alloc, tokens)?;
    Ok(Statement::Remove {
        target,
        label,
        right,
        tail,
    })
}

#[tactic(auto, unfolding(crate::specs::inside::Statements::labels, lorel_terms::specs::Repetitions::each, lorel_terms::specs::Repetitions::each_in))]
fn labels(alloc: Global, tokens: &mut Cursor<'_>) -> Result<TextList, ParseFault>
    ensures { Reads (λ labels. labels) (spec.labels [] tokens.old) result tokens.new }
{
    let mut labels = TextList::new(alloc);
    // Each turn takes a token, so that there are turns enough.
    'turns: for _turn in 0..tokens.len() {
        if !tokens.eat(Sign::Dot) {
            return Ok(labels);
        }
        labels.push(label(alloc, tokens)?)?;
    }
    Ok(labels)
}

#[tactic(auto, unfolding(crate::specs::inside::Statements::label_path))]
fn label_path(alloc: Global, tokens: &mut Cursor<'_>) -> Result<LabelPath, ParseFault>
    ensures { let outcome = spec.label_path tokens.old in
        Reads (λ path. (path.start, path.labels)) outcome result tokens.new }
{
    let start = name(alloc, tokens)?;
    let labels = labels(alloc, tokens)?;
    Ok(LabelPath { start, labels })
}

#[tactic(auto, unfolding(crate::specs::inside::Statements::sample))]
fn sample(alloc: Global, tokens: &mut Cursor<'_>) -> Result<Statement, ParseFault>
    ensures { Reads statement_tree (spec.sample tokens.old) result tokens.new }
{
    let path = label_path(alloc, tokens)?;
    let count = number(tokens)?;
    Ok(Statement::Sample(path, count))
}

#[tactic(auto, unfolding(crate::specs::inside::Statements::set))]
fn set(tokens: &mut Cursor<'_>) -> Result<Statement, ParseFault>
    ensures { Reads statement_tree (spec.set tokens.old) result tokens.new }
{
    if tokens.eat_word(b"nodes") {
        return Ok(Statement::SetNodes(number(tokens)?));
    }
    tokens.expect_word(b"plan")?;
    Ok(Statement::SetPlan(mode(tokens)?))
}

#[tactic(auto, unfolding(crate::specs::inside::Statements::generate))]
fn generate(tokens: &mut Cursor<'_>) -> Result<Statement, ParseFault>
    ensures { Reads statement_tree (spec.generate tokens.old) result tokens.new }
{
    let seed = number(tokens)?;
    let count = number(tokens)?;
    Ok(Statement::Generate(seed, count))
}
