ghost use Rattle.std.specs.Prelude.{◌≡◌, IfOk, OnOk, OnErr};
ghost use Rattle.lorel_trees.specs.Trees.{statement_tree};
ghost use Rattle.lorel_trees.specs.Sound.{IsSound};
ghost use Rattle.statements.specs.Forms.{IsChanging, IsOfSession, IsOfBlocks};
ghost use Rattle.statements.specs.Statements.{Executes};
ghost use Rattle.statements.specs.Uncounted.{ReadsNoEdge};

use crate::dumps::{dump_shown, restore};
use crate::explain::plan_shown;
use crate::guides::{guide_shown, set_nodes};
use crate::modes::set_plan;
use crate::path_lines::{browsed, sampled};
use crate::replies::Reply;
use crate::selects::select;
use crate::stops::reply_of;
use lore_base::{NoMemory, Steps};
use lore_store::Store;
use lorel_trees::Statement;
use std::alloc::Global;
use std::sync::ledger::Ledger;

/// Executes a statement that lists no changes, and keeps and asks none of a history, views and
/// blocks. A refusal, and want of memory, leave the database as it was. No step is counted for a
/// statement that shows a plan, the guide, or where a label path leads, or sets something, and for
/// a select for which no edge is read: where the guide tells all and no cell shows a word, or no
/// value is found to begin with.
pub fn execute<L: Ledger>(
    alloc: Global,
    store: &mut Store,
    statement: &Statement,
    steps: &mut Steps<L>,
) -> Result<Reply, NoMemory>
    requires sound { IsSound (statement_tree statement.now) }
    requires unchanging { ¬ IsChanging (statement_tree statement.now) }
    requires plain { ¬ IsOfSession (statement_tree statement.now) }
    requires unblocked { ¬ IsOfBlocks (statement_tree statement.now) }
    ensures ok { IfOk result (λ reply.
        Executes store.old.db (statement_tree statement.now) reply store.new.db) }
    ensures err { OnErr result (store.new.db ≡ store.old.db) }
    ensures uncounted { OnOk result (ReadsNoEdge store.old.db (statement_tree statement.now)
        → steps.new ≡ steps.old) }
{
    match statement {
        Statement::Select(query) => reply_of(select(alloc, store, query, steps)),
        Statement::Explain(query) => reply_of(plan_shown(alloc, store, query)),
        Statement::Guide => reply_of(guide_shown(store)),
        Statement::Browse(path) => reply_of(browsed(store, path)),
        Statement::Sample(path, count) => reply_of(sampled(store, path, *count)),
        Statement::SetNodes(nodes) => reply_of(set_nodes(store, *nodes)),
        Statement::SetPlan(mode) => Ok(set_plan(store, *mode)),
        Statement::Dump => reply_of(dump_shown(alloc, store, steps)),
        Statement::Restore(text) => reply_of(restore(alloc, store, text, steps)),
        Statement::Load { .. }
        | Statement::Name { .. }
        | Statement::Unname { .. }
        | Statement::Assign { .. }
        | Statement::AddNew { .. }
        | Statement::AddLink { .. }
        | Statement::Remove { .. }
        | Statement::Generate(..)
        | Statement::History(_)
        | Statement::At(..)
        | Statement::ChangesList(..)
        | Statement::Blocks
        | Statement::BlocksSelect(_)
        | Statement::Watch { .. }
        | Statement::Unwatch(_)
        | Statement::Show(_) => unreachable!(),
    }
}
