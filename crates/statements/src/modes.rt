ghost use Rattle.statements.specs.Statements.{ChoosesBy};

use crate::changing::counts;
use crate::replies::Reply;
use lore_base::Mode;
use lore_store::Store;

/// Sets how plans are chosen for selects.
pub(crate) fn set_plan(store: &mut Store, mode: Mode) -> Reply
    ensures { ChoosesBy store.old.db mode result store.new.db }
{
    store.set_mode(mode);
    counts(store)
}
