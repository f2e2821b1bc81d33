ghost use Rattle.std.specs.Prelude.{◌≡◌, map, option_map};
ghost use Rattle.lorel_tokens.specs.declared.token_types.Sign.TheVariants as s;
ghost use Rattle.lorel_trees.specs.Trees.{rooted_tree, item_tree, from_tree, cond_tree};
ghost use Rattle.lorel_trees.specs.Trees.{tail_tree, select_tree};
ghost use Rattle.lorel_terms.specs.Selects as spec;
ghost use Rattle.lorel_terms.specs.Repetitions.{each};
ghost use Rattle.lorel_terms.specs.Outcomes.{Reads, sees};

use crate::conditions::condition;
use crate::cursor::Cursor;
use crate::faults::ParseFault;
use crate::names::{name, sees_name};
use crate::paths::rooted;
use lore_base::limits::NESTING;
use lorel_tokens::{Kind, Sign};
use lorel_trees::{Cond, FromItem, FromList, Item, ItemList, Rooted, Select, Tail};
use std::alloc::Global;

#[tactic(auto, unfolding(crate::specs::Selects::sees_path_of))]
fn sees_path_of(tokens: &Cursor<'_>) -> bool
    ensures { result ≡ spec.sees_path_of tokens.now }
{
    matches!(tokens.peek(), Some(Kind::PathOf))
}

#[tactic(auto, unfolding(crate::specs::Selects::range))]
fn range(alloc: Global, tokens: &mut Cursor<'_>) -> Result<FromItem, ParseFault>
    ensures { Reads from_tree (spec.range tokens.old) result tokens.new }
{
    let path = rooted(alloc, tokens, NESTING)?;
    ranged(alloc, tokens, path)
}

// The variables behind the path of a from item: a name that stands there is the object variable.
#[tactic(auto, unfolding(crate::specs::Selects::ranged))]
fn ranged(alloc: Global, tokens: &mut Cursor<'_>, path: Rooted) -> Result<FromItem, ParseFault>
    ensures { Reads from_tree (spec.ranged (rooted_tree path) tokens.old) result tokens.new }
{
    if tokens.eat(Sign::At) {
        let word = name(alloc, tokens)?;
        let variable = name(alloc, tokens)?;
        return Ok(FromItem {
            path,
            word: Some(word),
            variable: Some(variable),
        });
    }
    if !sees_name(tokens) {
        return Ok(FromItem {
            path,
            word: None,
            variable: None,
        });
    }
    let variable = name(alloc, tokens)?;
    Ok(FromItem {
        path,
        word: None,
        variable: Some(variable),
    })
}

#[tactic(auto, unfolding(crate::specs::Selects::ranges))]
fn ranges(alloc: Global, tokens: &mut Cursor<'_>) -> Result<FromList, ParseFault>
    ensures { Reads (map from_tree) (spec.ranges tokens.old) result tokens.new }
{
    let mut first = FromList::new(alloc);
    if !tokens.eat_word(b"from") {
        return Ok(first);
    }
    first.push(range(alloc, tokens)?)?;
    more_ranges(alloc, tokens, first)
}

// The from items behind commas, behind those that were found.
#[tactic(auto, unfolding(crate::specs::Repetitions::each, crate::specs::Repetitions::each_in))]
fn more_ranges(
    alloc: Global,
    tokens: &mut Cursor<'_>,
    mut found: FromList,
) -> Result<FromList, ParseFault>
    ensures { let before = map from_tree found in
        Reads (map from_tree) (each (sees s.Comma) spec.range before tokens.old) result tokens.new }
{
    // Each turn takes a token, so that there are turns enough.
    'turns: for _turn in 0..tokens.len() {
        if !tokens.eat(Sign::Comma) {
            return Ok(found);
        }
        found.push(range(alloc, tokens)?)?;
    }
    Ok(found)
}

#[tactic(auto, unfolding(crate::specs::Selects::such_that, crate::specs::Conditions::condition))]
fn such_that(alloc: Global, tokens: &mut Cursor<'_>) -> Result<Option<Cond>, ParseFault>
    ensures { Reads (option_map cond_tree) (spec.such_that tokens.old) result tokens.new }
{
    if !tokens.eat_word(b"where") {
        return Ok(None);
    }
    Ok(Some(condition(alloc, tokens, NESTING)?))
}

/// The from items and the condition that a select or an update may end with.
#[tactic(auto, unfolding(crate::specs::Selects::tail))]
pub fn tail(alloc: Global, tokens: &mut Cursor<'_>) -> Result<Tail, ParseFault>
    ensures { Reads tail_tree (spec.tail tokens.old) result tokens.new }
{
    let ranges = ranges(alloc, tokens)?;
    let cond = such_that(alloc, tokens)?;
    Ok(Tail { ranges, cond })
}

#[tactic(auto, unfolding(crate::specs::Selects::item))]
fn item(alloc: Global, tokens: &mut Cursor<'_>) -> Result<Item, ParseFault>
    ensures { Reads item_tree (spec.item tokens.old) result tokens.new }
{
    if sees_path_of(tokens) {
        tokens.skip();
        tokens.expect(Sign::LeftParen)?;
        let variable = name(alloc, tokens)?;
        tokens.expect(Sign::RightParen)?;
        return Ok(Item::PathOf(variable));
    }
    Ok(Item::Object(rooted(alloc, tokens, NESTING)?))
}

#[tactic(auto, unfolding(crate::specs::Selects::items))]
fn items(alloc: Global, tokens: &mut Cursor<'_>) -> Result<ItemList, ParseFault>
    ensures { Reads (map item_tree) (spec.items tokens.old) result tokens.new }
{
    let mut first = ItemList::new(alloc);
    first.push(item(alloc, tokens)?)?;
    more_items(alloc, tokens, first)
}

// The items behind commas, behind those that were found.
#[tactic(auto, unfolding(crate::specs::Repetitions::each, crate::specs::Repetitions::each_in))]
fn more_items(
    alloc: Global,
    tokens: &mut Cursor<'_>,
    mut found: ItemList,
) -> Result<ItemList, ParseFault>
    ensures { let before = map item_tree found in
        Reads (map item_tree) (each (sees s.Comma) spec.item before tokens.old) result tokens.new }
{
    // Each turn takes a token, so that there are turns enough.
    'turns: for _turn in 0..tokens.len() {
        if !tokens.eat(Sign::Comma) {
            return Ok(found);
        }
        found.push(item(alloc, tokens)?)?;
    }
    Ok(found)
}

/// What stands behind `select`.
#[tactic(auto, unfolding(crate::specs::Selects::select))]
pub fn select(alloc: Global, tokens: &mut Cursor<'_>) -> Result<Select, ParseFault>
    ensures { Reads select_tree (spec.select tokens.old) result tokens.new }
{
    let items = items(alloc, tokens)?;
    let tail = tail(alloc, tokens)?;
    Ok(Select { items, tail })
}
