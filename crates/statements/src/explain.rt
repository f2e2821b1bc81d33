ghost use Rattle.std.specs.Prelude.{IfOk, IfErr};
ghost use Rattle.lore_base.specs.Verdicts.{IsToldBy};
ghost use Rattle.lorel_trees.specs.Trees.{select_tree, explain};
ghost use Rattle.lorel_ranges.specs.Texts.{IsShallow};
ghost use Rattle.statements.specs.Statements.{Cause, cause_order, Executes};
ghost use Rattle.statements.specs.Stops.{told};

use crate::replies::Reply;
use crate::selects::{bound, plan_of};
use crate::stops::Stop;
use lore_store::Store;
use lorel_bound::Plan;
use lorel_trees::Select;
use std::alloc::Global;

/// The plan of a select, of which no row is found. No edge is read. Refused is what can't be bound.
pub(crate) fn plan_shown(alloc: Global, store: &Store, query: &Select) -> Result<Reply, Stop>
    requires { IsShallow (select_tree query.now) }
    ensures ok { IfOk result (λ reply.
        Executes store.now.db (explain (select_tree query.now)) reply store.now.db) }
    ensures refused { let tree = explain (select_tree query.now) in
        IfErr result (λ stop. IsToldBy (Cause store.now.db tree) cause_order (told stop)) }
{
    let bound = bound(alloc, store, query)?;
    let plan = plan_of(alloc, store, &bound);
    drop(bound);
    let Plan {
        kind,
        candidates,
        found,
        ..
    } = plan?;
    Ok(Reply::PlanShown {
        kind,
        candidates,
        found,
    })
}
