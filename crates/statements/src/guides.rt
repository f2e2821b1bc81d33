ghost use Rattle.std.specs.Prelude.{◌≡◌, Some, None, IfOk, IfErr, OnOk, OnErr};
ghost use Rattle.statements.specs.Types.refusals;
ghost use Rattle.statements.specs.Statements.{Shows, Limits, IsNoLimit};
ghost use Rattle.statements.specs.Stops.{told};

use crate::changing::counts;
use crate::replies::Reply;
use crate::stops::Stop;
use guide_query::guide_lines;
use lore_base::Refusal;
use lore_store::Store;

/// The lines of the guide.
pub(crate) fn guide_shown(store: &Store) -> Result<Reply, Stop>
    ensures ok { IfOk result (λ reply. Shows store.now.db reply store.now.db) }
    ensures unrefused { IfErr result (λ stop. told stop ≡ None) }
{
    let lines = guide_lines(store.guide(), store.graph().names(), store.labels())?;
    Ok(Reply::Lines(lines))
}

/// Sets the most nodes that the guide may have. Refused is a number out of range, or below the
/// number of nodes that there are.
pub(crate) fn set_nodes(store: &mut Store, nodes: i64) -> Result<Reply, Stop>
    ensures ok { IfOk result (λ reply. Limits store.old.db nodes reply store.new.db) }
    ensures limit { OnOk result (¬ IsNoLimit store.old.db nodes) }
    ensures same { OnErr result (store.new.db ≡ store.old.db) }
    ensures refused { IfErr result (λ stop.
        (told stop ≡ Some refusals.LimitRange) × IsNoLimit store.old.db nodes) }
{
    let Ok(limit) = u32::try_from(nodes) else {
        return Err(Stop::Refused(Refusal::LimitRange));
    };
    if !store.set_limit(limit) {
        return Err(Stop::Refused(Refusal::LimitRange));
    }
    Ok(counts(store))
}
