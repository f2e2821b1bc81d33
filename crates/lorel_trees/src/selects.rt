ghost use Rattle.std.specs.Prelude.{◌≡◌, option_map, IfOk};
ghost use Rattle.lorel_trees.specs.Trees.{ItemTree, FromTree, TailTree, SelectTree};
ghost use Rattle.lorel_trees.specs.Trees.{item_tree, from_tree, cond_tree, tail_tree, select_tree};

use crate::conditions::Cond;
use crate::rooted_paths::Rooted;
use lore_base::{Listing, NoMemory, OemText, TryCopy};
use std::alloc::Global;

/// One cell of each row of a select.
#[derive(Drop)]
pub enum Item {
    /// The object that the path reaches.
    Object(Rooted),
    /// `path-of(name)`: the least word by which the range of this path variable is reached.
    PathOf(OemText),
}

/// The items of a select, in text order.
pub type ItemList = Listing<Item>;

/// A path that is ranged over, perhaps with a path variable and an object variable.
#[derive(Drop)]
pub struct FromItem {
    pub path: Rooted,
    /// The path variable: it is bound to the least word of the path between both objects.
    pub word: Option<OemText>,
    /// The object variable: it is bound to the object that the walk reaches.
    pub variable: Option<OemText>,
}

/// The from items of a select or update, in text order.
pub type FromList = Listing<FromItem>;

/// What a select or update may end with: its from items and its condition.
#[derive(Drop)]
pub struct Tail {
    pub ranges: FromList,
    pub cond: Option<Cond>,
}

/// A select: its items and its tail.
#[derive(Drop)]
pub struct Select {
    pub items: ItemList,
    pub tail: Tail,
}

impl TryCopy for Item {
    ghost Seen = { ItemTree };

    ghost seen = { item_tree };

    fn try_copy(&self, alloc: Global) -> Result<Self, NoMemory> {
        match self {
            Item::Object(path) => Ok(Item::Object(path.try_copy(alloc)?)),
            Item::PathOf(word) => Ok(Item::PathOf(word.try_copy(alloc)?)),
        }
    }
}

impl TryCopy for FromItem {
    ghost Seen = { FromTree };

    ghost seen = { from_tree };

    fn try_copy(&self, alloc: Global) -> Result<Self, NoMemory> {
        let path = self.path.try_copy(alloc)?;
        let word = copy_variable(alloc, &self.word)?;
        let variable = copy_variable(alloc, &self.variable)?;
        Ok(FromItem {
            path,
            word,
            variable,
        })
    }
}

fn copy_variable(alloc: Global, variable: &Option<OemText>) -> Result<Option<OemText>, NoMemory>
    ensures { IfOk result (λ copy. copy ≡ variable.now) }
{
    match variable {
        Some(text) => Ok(Some(text.try_copy(alloc)?)),
        None => Ok(None),
    }
}

impl TryCopy for Tail {
    ghost Seen = { TailTree };

    ghost seen = { tail_tree };

    fn try_copy(&self, alloc: Global) -> Result<Self, NoMemory> {
        let ranges = self.ranges.try_copy(alloc)?;
        let cond = copy_where(alloc, &self.cond)?;
        Ok(Tail { ranges, cond })
    }
}

fn copy_where(alloc: Global, cond: &Option<Cond>) -> Result<Option<Cond>, NoMemory>
    ensures { IfOk result (λ copy. option_map cond_tree copy ≡ option_map cond_tree cond.now) }
{
    match cond {
        Some(cond) => Ok(Some(cond.try_copy(alloc)?)),
        None => Ok(None),
    }
}

impl TryCopy for Select {
    ghost Seen = { SelectTree };

    ghost seen = { select_tree };

    fn try_copy(&self, alloc: Global) -> Result<Self, NoMemory> {
        let items = self.items.try_copy(alloc)?;
        let tail = self.tail.try_copy(alloc)?;
        Ok(Select { items, tail })
    }
}
