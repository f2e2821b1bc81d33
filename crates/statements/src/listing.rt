ghost use Rattle.std.specs.Prelude.{◌≡◌, IfOk, IfErr};
ghost use Rattle.lore_base.specs.Verdicts.{IsToldBy};
ghost use Rattle.lorel_trees.specs.Trees.{statement_tree};
ghost use Rattle.lorel_trees.specs.Sound.{IsSound};
ghost use Rattle.statements.specs.Bounds.{ListsUnread};
ghost use Rattle.statements.specs.Forms.{MakesChanges, IsChanging};
ghost use Rattle.statements.specs.Statements.{Cause, cause_order};
ghost use Rattle.statements.specs.inside.Listed.{ListsChanges};
ghost use Rattle.statements.specs.Stops.{told};

use crate::generating::generate_changes;
use crate::loads::load_changes;
use crate::namings::{name_changes, unname_changes};
use crate::stops::Stop;
use crate::updating::update_changes;
use lore_base::{Changes, Steps};
use lore_store::Store;
use lorel_trees::Statement;
use std::alloc::Global;
use std::sync::ledger::Ledger;

/// The changes that a statement lists over the database before it, which stays as it is. No step is
/// counted for a load, a name that is taken away, and generated objects.
pub(crate) fn listed<L: Ledger>(
    alloc: Global,
    store: &Store,
    statement: &Statement,
    steps: &mut Steps<L>,
) -> Result<Changes, Stop>
    requires sound { IsSound (statement_tree statement.now) }
    requires changing { IsChanging (statement_tree statement.now) }
    ensures lists { IfOk result (ListsChanges store.now.db (statement_tree statement.now)) }
    ensures refused { IfErr result (λ stop.
        IsToldBy (Cause store.now.db (statement_tree statement.now)) cause_order (told stop)) }
    ensures unread { ListsUnread (statement_tree statement.now) → steps.new ≡ steps.old }
    ensures uncounted { (¬ MakesChanges (statement_tree statement.now)) → steps.new ≡ steps.old }
{
    match statement {
        Statement::Load { name, literal } => load_changes(alloc, store, name, literal),
        Statement::Name { name, path } => name_changes(alloc, store, name, path, steps),
        Statement::Unname { name } => unname_changes(alloc, store, name),
        Statement::Generate(seed, count) => generate_changes(alloc, store, *seed, *count),
        update => update_changes(alloc, store, update, steps),
    }
}
