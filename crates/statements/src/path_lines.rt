ghost use Rattle.std.specs.Prelude.{◌≡◌, pos, ◌≤◌, IfOk, IfErr, IfSome, IfNone};
ghost use Rattle.lore_base.specs.Verdicts.{IsToldBy};
ghost use Rattle.lorel_trees.specs.Trees.{browse, sample};
ghost use Rattle.statements.specs.Types.{SAMPLE as THE_SAMPLE};
ghost use Rattle.statements.specs.Forms.{IsBetween};
ghost use Rattle.statements.specs.Statements.{Cause, cause_order, Executes};
ghost use Rattle.statements.specs.Stops.{told};

use crate::replies::Reply;
use crate::stops::Stop;
use guide_query::{browse_lines, sample_lines};
use lore_base::Refusal;
use lore_base::limits::SAMPLE;
use lore_store::Store;
use lorel_trees::LabelPath;

/// Shows where a label path leads. Refused is one whose start is no name.
pub(crate) fn browsed(store: &Store, path: &LabelPath) -> Result<Reply, Stop>
    ensures ok { IfOk result (λ reply.
        Executes store.now.db (browse path.now.start path.now.labels) reply store.now.db) }
    ensures refused { let tree = browse path.now.start path.now.labels in
        IfErr result (λ stop. IsToldBy (Cause store.now.db tree) cause_order (told stop)) }
{
    if store.graph().name(&path.start).is_none() {
        return Err(Stop::Refused(Refusal::UnknownName));
    }
    let lines = browse_lines(store.guide(), path, store.labels())?;
    Ok(Reply::Lines(lines))
}

/// Shows the first objects that a label path leads to, at most so many. Refused are a start that
/// is no name, and a number that isn't from 1 to `SAMPLE`.
pub(crate) fn sampled(store: &Store, path: &LabelPath, count: i64) -> Result<Reply, Stop>
    ensures ok { IfOk result (λ reply.
        Executes store.now.db (sample path.now.start path.now.labels count) reply store.now.db) }
    ensures refused { let tree = sample path.now.start path.now.labels count in
        IfErr result (λ stop. IsToldBy (Cause store.now.db tree) cause_order (told stop)) }
{
    let graph = store.graph();
    if graph.name(&path.start).is_none() {
        return Err(Stop::Refused(Refusal::UnknownName));
    }
    let Some(count) = sample_size(count) else {
        return Err(Stop::Refused(Refusal::LimitRange));
    };
    let lines = sample_lines(store.guide(), graph, path, count, store.labels())?;
    Ok(Reply::Lines(lines))
}

// The number of objects to show at most; None exactly where the number isn't from 1 to `SAMPLE`.
fn sample_size(count: i64) -> Option<u32>
    ensures some { IfSome result (λ size. (count ≡ pos size) × (1 ≤ size) × (size ≤ THE_SAMPLE)) }
    ensures none { IfNone result (¬ IsBetween 1 THE_SAMPLE count) }
{
    let size = u32::try_from(count).ok()?;
    if size < 1 || size > SAMPLE {
        return None;
    }
    Some(size)
}
