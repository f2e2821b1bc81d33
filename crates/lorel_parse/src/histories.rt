ghost use Rattle.std.specs.Prelude.{◌≡◌, map};
ghost use Rattle.std.specs.List.{list_all};
ghost use Rattle.lorel_trees.specs.Trees.{item_tree, statement_tree};
ghost use Rattle.lorel_parse.specs.inside.Statements as spec;
ghost use Rattle.lorel_terms.specs.Outcomes.{Reads};

use crate::dump_texts::number;
use lorel_terms::{Cursor, ParseFault, name, select};
use lorel_tokens::Sign;
use lorel_trees::{Item, ItemList, Statement};
use std::alloc::Global;

/// The forms of history, of moments and of selects that are kept.
#[tactic(auto, unfolding(crate::specs::inside::Statements::keeping, crate::specs::inside::Statements::history, crate::specs::inside::Statements::unwatch, crate::specs::inside::Statements::show))]
pub(crate) fn keeping(
    alloc: Global,
    tokens: &mut Cursor<'_>,
    first: &[u8],
) -> Result<Statement, ParseFault>
    ensures { Reads statement_tree (spec.keeping first.now tokens.old) result tokens.new }
{
    if first == b"history".as_slice() {
        return Ok(Statement::History(switch(tokens)?));
    }
    if first == b"at".as_slice() {
        return select_at(alloc, tokens);
    }
    if first == b"changes".as_slice() {
        return changes(tokens);
    }
    if first == b"blocks".as_slice() {
        return blocks(alloc, tokens);
    }
    if first == b"watch".as_slice() {
        return watch(alloc, tokens);
    }
    if first == b"unwatch".as_slice() {
        return Ok(Statement::Unwatch(name(alloc, tokens)?));
    }
    if first == b"show".as_slice() {
        return Ok(Statement::Show(name(alloc, tokens)?));
    }
    Err(ParseFault::Syntax)
}

#[tactic(auto, unfolding(crate::specs::inside::Statements::switch))]
fn switch(tokens: &mut Cursor<'_>) -> Result<bool, ParseFault>
    ensures { Reads (λ on. on) (spec.switch tokens.old) result tokens.new }
{
    if tokens.eat_word(b"on") {
        return Ok(true);
    }
    if tokens.eat_word(b"off") {
        return Ok(false);
    }
    Err(ParseFault::Syntax)
}

#[tactic(auto, unfolding(crate::specs::inside::Statements::select_at))]
fn select_at(alloc: Global, tokens: &mut Cursor<'_>) -> Result<Statement, ParseFault>
    ensures { Reads statement_tree (spec.select_at tokens.old) result tokens.new }
{
    let moment = number(tokens)?;
    tokens.expect_word(b"select")?;
    Ok(Statement::At(moment, select(alloc, tokens)?))
}

#[tactic(auto, unfolding(crate::specs::inside::Statements::changes))]
fn changes(tokens: &mut Cursor<'_>) -> Result<Statement, ParseFault>
    ensures { Reads statement_tree (spec.changes tokens.old) result tokens.new }
{
    let first = number(tokens)?;
    let last = number(tokens)?;
    Ok(Statement::ChangesList(first, last))
}

#[tactic(auto, unfolding(crate::specs::inside::Statements::blocks))]
fn blocks(alloc: Global, tokens: &mut Cursor<'_>) -> Result<Statement, ParseFault>
    ensures { Reads statement_tree (spec.blocks tokens.old) result tokens.new }
{
    if !tokens.eat_word(b"select") {
        return Ok(Statement::Blocks);
    }
    Ok(Statement::BlocksSelect(select(alloc, tokens)?))
}

#[tactic(auto, unfolding(crate::specs::inside::Statements::watch))]
fn watch(alloc: Global, tokens: &mut Cursor<'_>) -> Result<Statement, ParseFault>
    ensures { Reads statement_tree (spec.watch tokens.old) result tokens.new }
{
    let name = name(alloc, tokens)?;
    tokens.expect(Sign::Assign)?;
    tokens.expect_word(b"select")?;
    let select = select(alloc, tokens)?;
    if are_objects(&select.items) {
        Ok(Statement::Watch { name, select })
    } else {
        drop(select);
        Err(ParseFault::Syntax)
    }
}

// Whether each item is a path, and none `path-of`.
fn are_objects(items: &ItemList) -> bool
    ensures { result ≡ list_all spec.is_object (map item_tree items.now) }
{
    'items: for item in items.as_slice() {
        if !is_object(item) {
            return false;
        }
    }
    true
}

fn is_object(item: &Item) -> bool
    ensures { result ≡ spec.is_object (item_tree item.now) }
{
    matches!(item, Item::Object(_))
}
