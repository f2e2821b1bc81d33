ghost use Rattle.std.specs.Prelude.{◌≡◌, ◌≤◌, pos, IfOk, IfErr, IfSome, IfNone};
ghost use Rattle.lore_base.specs.Verdicts.{IsToldBy};
ghost use Rattle.lorel_trees.specs.Trees.{generate};
ghost use Rattle.statements.specs.Forms.{AreGenerable};
ghost use Rattle.statements.specs.Types.{SEED as THE_SEED, FEWEST_PERSONS as THE_FEWEST};
ghost use Rattle.statements.specs.Types.{MOST_PERSONS as THE_MOST};
ghost use Rattle.statements.specs.Statements.{Cause, cause_order};
ghost use Rattle.statements.specs.inside.Listed.{ListsChanges};
ghost use Rattle.statements.specs.Stops.{told};

use crate::loads::loading;
use crate::stops::Stop;
use lore_base::limits::{FEWEST_PERSONS, MOST_PERSONS, SEED};
use lore_base::{Changes, OemText, Refusal};
use lore_store::Store;
use oem_text::generated;
use std::alloc::Global;

/// The changes of generated objects, which are loaded under the name `People`: so many persons, by
/// this seed, and what they belong to. Refused before all else are a seed and a number of persons
/// out of range.
pub(crate) fn generate_changes(
    alloc: Global,
    store: &Store,
    seed: i64,
    count: i64,
) -> Result<Changes, Stop>
    ensures lists { IfOk result (ListsChanges store.now.db (generate seed count)) }
    ensures refused { IfErr result (λ stop.
        IsToldBy (Cause store.now.db (generate seed count)) cause_order (told stop)) }
{
    let Some((seed, count)) = generable(seed, count) else {
        return Err(Stop::Refused(Refusal::LimitRange));
    };
    let part = generated(alloc, seed, count, store.graph().next(), store.labels())?;
    let name = OemText::from_bytes(alloc, b"People")?;
    Ok(loading(alloc, &name, part)?)
}

// The seed and the number of persons; None exactly where one of them is out of range.
fn generable(seed: i64, count: i64) -> Option<(u32, u32)>
    ensures seed { IfSome result (λ numbers. (seed ≡ pos numbers.0) × (numbers.0 ≤ THE_SEED)) }
    ensures count { IfSome result (λ numbers.
        (count ≡ pos numbers.1) × (THE_FEWEST ≤ numbers.1) × (numbers.1 ≤ THE_MOST)) }
    ensures none { IfNone result (¬ AreGenerable seed count) }
{
    let seed = u32::try_from(seed).ok()?;
    let count = u32::try_from(count).ok()?;
    if seed > SEED || count < FEWEST_PERSONS || count > MOST_PERSONS {
        return None;
    }
    Some((seed, count))
}
