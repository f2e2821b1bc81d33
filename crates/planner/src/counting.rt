ghost use Rattle.std.specs.Prelude.{◌≡◌, ◌≢◌, ◌<◌, ◌^◌, List, length, map, IfOk};
ghost use Rattle.lore_base.specs.Paths.{path_tree, seq, trees_of};
ghost use Rattle.lore_base.specs.TargetSets.{ListsInOrder};
ghost use Rattle.index_traits.specs.Entries.{IsProbed};
ghost use Rattle.index_traits.specs.Counts.{IsCount};
ghost use Rattle.lorel_bound.specs.Bound.{range_tree, bound_tree};
ghost use Rattle.lorel_bound.specs.Runnable.{IsRunnable};
ghost use Rattle.lorel_bound.specs.Plans.{IsCandidate, path_to};
ghost use Rattle.planner.specs.Types.{Oid as TheOid, Complex};
ghost use Rattle.planner.specs.inside.Probes.{probe_tree};

use crate::beginnings::Beginning;
use crate::probes::Probe;
use index_traits::{Paths, Values};
use lore_base::{Label, NoMemory, Path, PathList, TryCopy};
use lorel_bound::{Bound, Range};
use std::alloc::Global;

/// How many objects have a value that is asked for, by the label that has the text; none without
/// one.
pub(crate) fn candidate_count<V: Values>(values: &V, label: Option<Label>, probe: &Probe) -> u32
    requires op { IsProbed probe.now.op }
    requires value { probe.now.value.now ≢ Complex }
    ensures { let asked = probe_tree probe.now in
        IsCount (IsCandidate (V.entries values.now) label asked.op asked.value) result }
{
    match label {
        Some(own) => values.probe_count(own, probe.op, probe.value),
        None => 0,
    }
}

/// How many objects the comparison's range reaches from the name.
pub(crate) fn reached_count<P: Paths>(
    alloc: Global,
    bound: &Bound,
    beginning: &Beginning,
    paths: &P,
) -> Result<u32, NoMemory>
    requires runnable { IsRunnable (bound_tree bound.now) }
    requires within { beginning.now.probe.slot < length (bound_tree bound.now).ranges }
    requires few { let path = path_to (bound_tree bound.now) (probe_tree beginning.now.probe) in
        (oids : List TheOid) → ListsInOrder (P.reaches paths.now path beginning.now.named) oids
        → length oids < 2 ^ 32 }
    ensures { let path = path_to (bound_tree bound.now) (probe_tree beginning.now.probe) in
        IfOk result (IsCount (P.reaches paths.now path beginning.now.named)) }
{
    let slot = beginning.probe.slot as usize;
    let (before, _) = bound.ranges.as_slice().split_at(slot + 1);
    let path = joined_path(alloc, before)?;
    let number = paths.count(alloc, &path, beginning.named)?;
    Ok(number as u32)
}

// The path along these ranges, one after another.
fn joined_path(alloc: Global, ranges: &[Range]) -> Result<Path, NoMemory>
    ensures { IfOk result (λ path. path_tree path
        ≡ seq (trees_of (map (λ range. range.path) (map range_tree ranges.now)))) }
{
    let mut parts = PathList::new(alloc);
    'ranges: for range in ranges {
        parts.push(range.path.try_copy(alloc)?)?;
    }
    Ok(Path::Seq(parts))
}
