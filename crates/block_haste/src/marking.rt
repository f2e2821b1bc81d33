ghost use Rattle.std.specs.Prelude.{◌≡◌, ℕ, ◌<◌, length, All, IfOk, OnOk, cond};
ghost use Rattle.block_haste.specs.inside.Marking.{mix_one, mix, mark_start, stands, AreMarkedBy};
ghost use Rattle.block_haste.specs.inside.Hastening.{IsTouchedBy, AreTouched, HaveNoMarks};

use crate::tally::Tally;
use lore_lists::NoMemory;
use std::alloc::Global;

// A change that enters a node: the label, the tag that the parent had and the number that it has.
pub(crate) type Change = (u32, usize, usize);

// The multiplier of Knuth's MMIX generator: odd, without a pattern in its bits.
const FACTOR: u64 = 6_364_136_223_846_793_005;

fn mixed_one(hash: u64, number: u64) -> u64
    ensures { result ≡ mix_one hash number }
{
    hash.wrapping_mul(FACTOR).wrapping_add(number)
}

fn started(mark: Option<u64>) -> u64
    ensures { result ≡ mark_start mark }
{
    match mark {
        Some(mark) => mark,
        None => 1,
    }
}

fn bit(still: bool) -> u64
    ensures { result ≡ cond still 1 0 }
{
    if still { 1 } else { 0 }
}

// The mark with one more change.
fn mixed(mark: Option<u64>, change: Change, still: bool) -> u64
    ensures { result ≡ mix mark change still }
{
    let start = started(mark);
    let label = u64::from(change.0);
    let first = mixed_one(start, label);
    let second = mixed_one(first, change.1 as u64);
    let third = mixed_one(second, change.2 as u64);
    let last = bit(still);
    mixed_one(third, last)
}

// Lists the node, unless its mark says that it is listed already.
fn touch(touched: &mut Vec<usize>, node: usize, mark: Option<u64>) -> Result<(), NoMemory>
    ensures { OnOk result (IsTouchedBy node mark touched.old.items touched.new.items) }
{
    if mark.is_none() {
        touched.push(node)?;
    }
    Ok(())
}

// Marks the nodes by what entered them anew, and lists them.
pub(crate) fn mark_touched(
    alloc: Global,
    events: &[(usize, Change)],
    tally: &Tally,
    marks: &mut Vec<Option<u64>>,
) -> Result<Vec<usize>, NoMemory>
    requires within { All (λ event. event.0 < length marks.old.items) events.now }
    requires none { HaveNoMarks marks.old.items }
    ensures marks { OnOk result (AreMarkedBy (stands tally.now) events.now marks.new.items) }
    ensures touched { IfOk result (λ touched. AreTouched marks.new.items touched.items) }
    ensures within { IfOk result
        (λ touched. All (λ node. node < length marks.old.items) touched.items) }
    ensures every { length marks.new.items ≡ length marks.old.items }
{
    let mut touched = Vec::new(alloc);
    'events: for event in events {
        let node = event.0;
        let change = event.1;
        let still = tally.has((node, change.0, change.1));
        let mark = marks[node];
        touch(&mut touched, node, mark)?;
        marks[node] = Some(mixed(mark, change, still));
    }
    Ok(touched)
}
