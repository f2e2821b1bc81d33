ghost use Rattle.std.specs.Prelude.{OnOk, map, option_map};
ghost use Rattle.lorel_ast.specs.Printing.{print_variables, print_range, print_from, print_where};
ghost use Rattle.lorel_ast.specs.Printing.{print_tail};
ghost use Rattle.lorel_ast.specs.Printing.{print_item, print_items, print_select};
ghost use Rattle.lorel_trees.specs.Trees.{from_tree, cond_tree, tail_tree, item_tree, select_tree};
ghost use Rattle.lorel_ast.specs.inside.Puts.{Puts};

use crate::print_conditions::{Standing, put_cond};
use crate::print_paths::put_rooted;
use crate::token_writer::TokenWriter;
use lore_base::{NoMemory, OemText};
use lorel_tokens::Sign;
use lorel_trees::{Cond, FromItem, Item, Select, Tail};

// The variables behind a path: `@ word`, and the object variable.
fn put_variables(
    word: &Option<OemText>,
    variable: &Option<OemText>,
    out: &mut TokenWriter,
) -> Result<(), NoMemory>
    ensures { OnOk result (Puts (print_variables word.now variable.now) out.old out.new) }
{
    if let Some(word) = word {
        out.symbol(Sign::At)?;
        out.word(word.as_bytes())?;
    }
    if let Some(variable) = variable {
        out.word(variable.as_bytes())?;
    }
    Ok(())
}

fn put_from_item(item: &FromItem, out: &mut TokenWriter) -> Result<(), NoMemory>
    ensures { OnOk result (Puts (print_range (from_tree item.now)) out.old out.new) }
{
    put_rooted(&item.path, out)?;
    put_variables(&item.word, &item.variable, out)?;
    Ok(())
}

fn put_from(ranges: &[FromItem], out: &mut TokenWriter) -> Result<(), NoMemory>
    ensures { OnOk result (Puts (print_from (map from_tree ranges.now)) out.old out.new) }
{
    match ranges {
        [] => Ok(()),
        [first, others @ ..] => {
            out.word(b"from")?;
            put_from_item(first, out)?;
            'others: for item in others {
                out.symbol(Sign::Comma)?;
                put_from_item(item, out)?;
            }
            Ok(())
        }
    }
}

fn put_where(cond: &Option<Cond>, out: &mut TokenWriter) -> Result<(), NoMemory>
    ensures { OnOk result (Puts (print_where (option_map cond_tree cond.now)) out.old out.new) }
{
    match cond {
        Some(cond) => {
            out.word(b"where")?;
            put_cond(cond, Standing::Alone, out)?;
            Ok(())
        }
        None => Ok(()),
    }
}

/// The from items and the condition.
pub(crate) fn put_tail(tail: &Tail, out: &mut TokenWriter) -> Result<(), NoMemory>
    ensures { OnOk result (Puts (print_tail (tail_tree tail.now)) out.old out.new) }
{
    put_from(tail.ranges.as_slice(), out)?;
    put_where(&tail.cond, out)?;
    Ok(())
}

fn put_item(item: &Item, out: &mut TokenWriter) -> Result<(), NoMemory>
    ensures { OnOk result (Puts (print_item (item_tree item.now)) out.old out.new) }
{
    match item {
        Item::Object(path) => {
            put_rooted(path, out)?;
            Ok(())
        }
        Item::PathOf(variable) => {
            out.path_of()?;
            out.symbol(Sign::LeftParen)?;
            out.word(variable.as_bytes())?;
            out.symbol(Sign::RightParen)?;
            Ok(())
        }
    }
}

fn put_items(items: &[Item], out: &mut TokenWriter) -> Result<(), NoMemory>
    ensures { OnOk result (Puts (print_items (map item_tree items.now)) out.old out.new) }
{
    match items {
        [] => Ok(()),
        [first, others @ ..] => {
            put_item(first, out)?;
            'others: for item in others {
                out.symbol(Sign::Comma)?;
                put_item(item, out)?;
            }
            Ok(())
        }
    }
}

/// `select`, the items and the tail.
pub(crate) fn put_select(query: &Select, out: &mut TokenWriter) -> Result<(), NoMemory>
    ensures { OnOk result (Puts (print_select (select_tree query.now)) out.old out.new) }
{
    out.word(b"select")?;
    put_items(query.items.as_slice(), out)?;
    put_tail(&query.tail, out)?;
    Ok(())
}
