ghost use Rattle.std.specs.Prelude.{◌≡◌, IfOk, IfErr};
ghost use Rattle.lore_base.specs.Verdicts.{IsToldBy};
ghost use Rattle.lorel_trees.specs.Trees.{literal_tree, load};
ghost use Rattle.statements.specs.Statements.{Cause, cause_order};
ghost use Rattle.statements.specs.inside.Listed.{ListsChanges};
ghost use Rattle.statements.specs.Stops.{told};
ghost use Rattle.statements.specs.inside.Stages.{loading_part};

use crate::stops::Stop;
use lore_base::{Changes, NoMemory, OemText, TryCopy};
use lore_store::Store;
use lorel_trees::Literal;
use oem_text::{Part, instantiate};
use std::alloc::Global;

/// The changes of a load: the objects and edges of a literal are made, and the name is bound to the
/// first of them, in place of an older binding.
pub(crate) fn load_changes(
    alloc: Global,
    store: &Store,
    name: &OemText,
    literal: &Literal,
) -> Result<Changes, Stop>
    ensures lists { let tree = load name.now (literal_tree literal.now) in
        IfOk result (ListsChanges store.now.db tree) }
    ensures refused { let tree = load name.now (literal_tree literal.now) in
        IfErr result (λ stop. IsToldBy (Cause store.now.db tree) cause_order (told stop)) }
{
    let part = instantiate(alloc, literal, store.graph().next(), store.labels())?;
    Ok(loading(alloc, name, part)?)
}

// The changes that make the part and bind the name to its first object.
pub(crate) fn loading(alloc: Global, name: &OemText, part: Part) -> Result<Changes, NoMemory>
    ensures { IfOk result (λ changes. changes ≡ loading_part name.now part) }
{
    let Part {
        made,
        added,
        labels,
        root,
    } = part;
    let mut changes = Changes::new(alloc);
    changes.made = made;
    changes.added = added;
    changes.labels = labels;
    changes.named.put(name.try_copy(alloc)?, root)?;
    Ok(changes)
}
