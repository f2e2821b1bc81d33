ghost use Rattle.std.specs.Prelude.{◌≡◌, option_map, IfOk};
ghost use Rattle.lorel_trees.specs.Trees.{rooted_tree, tail_tree, select_tree, statement_tree};
ghost use Rattle.lorel_trees.specs.UpdateRows.{rows_of, target_select, pair_select};

use crate::rooted_paths::Rooted;
use crate::selects::{Item, ItemList, Select, Tail};
use crate::statements::Statement;
use lore_base::{NoMemory, TryCopy};
use std::alloc::Global;

/// The select that gives the rows of an update: its target, then its right side where that is a
/// path, with the same tail.
///
/// None comes exactly for statements that are no update.
pub fn rows_form(alloc: Global, statement: &Statement) -> Result<Option<Select>, NoMemory>
    ensures { IfOk result
        (λ rows. option_map select_tree rows ≡ rows_of (statement_tree statement.now)) }
{
    match statement {
        Statement::Assign { target, tail, .. } => Ok(Some(target_rows(alloc, target, tail)?)),
        Statement::AddNew { target, tail, .. } => Ok(Some(target_rows(alloc, target, tail)?)),
        Statement::AddLink {
            target,
            right,
            tail,
            ..
        } => Ok(Some(pair_rows(alloc, target, right, tail)?)),
        Statement::Remove {
            target,
            right,
            tail,
            ..
        } => Ok(Some(pair_rows(alloc, target, right, tail)?)),
        _ => Ok(None),
    }
}

fn target_rows(alloc: Global, target: &Rooted, tail: &Tail) -> Result<Select, NoMemory>
    ensures { IfOk result (λ select.
        select_tree select ≡ target_select (rooted_tree target.now) (tail_tree tail.now)) }
{
    let mut items = ItemList::new(alloc);
    items.push(Item::Object(target.try_copy(alloc)?))?;
    let tail = tail.try_copy(alloc)?;
    Ok(Select { items, tail })
}

fn pair_rows(
    alloc: Global,
    target: &Rooted,
    right: &Rooted,
    tail: &Tail,
) -> Result<Select, NoMemory>
    ensures { IfOk result (λ select. select_tree select
        ≡ pair_select (rooted_tree target.now) (rooted_tree right.now) (tail_tree tail.now)) }
{
    let mut items = ItemList::new(alloc);
    items.push(Item::Object(target.try_copy(alloc)?))?;
    items.push(Item::Object(right.try_copy(alloc)?))?;
    let tail = tail.try_copy(alloc)?;
    Ok(Select { items, tail })
}
