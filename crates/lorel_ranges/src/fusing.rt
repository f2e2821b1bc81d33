ghost use Rattle.std.specs.Prelude.{◌≡◌, ℕ, ◌<◌, [], length, true, false, IfSome, IfNone, IfOk};
ghost use Rattle.std.specs.Prelude.{OnOk};
ghost use Rattle.lorel_trees.specs.Trees.{select_tree};
ghost use Rattle.lorel_ranges.specs.Ranges.{AreFused};
ghost use Rattle.lorel_ranges.specs.Views.{ranges_of};
ghost use Rattle.lorel_ranges.specs.Readings.{IsTextOf};
ghost use Rattle.lorel_ranges.specs.SelectRanges.{AreRangesOf};
ghost use Rattle.lorel_ranges.specs.inside.Orders.{AreOrdered};
ghost use Rattle.lorel_ranges.specs.inside.SelectRanges.{AreFollowed, IsMarked};
ghost use Rattle.lorel_ranges.specs.inside.Joins.{IsJoined, TakesOver};
ghost use Rattle.lorel_ranges.specs.declared.select_ranges.Followers.TheVariants.{One};

use crate::places::Place;
use crate::select_ranges::{Followers, SelectRanges, TextRange, plain_ranges};
use crate::text::Text;
use lore_base::{NoMemory, Path};
use lorel_trees::Select;
use std::alloc::Global;
use std::mem;

/// The fused ranges of a select that was read so, and the places of its plain ones. Makes a range
/// of each object variable, and of each prefix of the path of an item or of a from item without
/// one. A range is joined with the only one that starts at it, where no item shows its object or
/// needs it for a word, and no path of the condition is fixed at it. It takes steps linear in the
/// text, save that a range is looked for among those with parts, of which there are at most as many
/// as path leaves.
pub fn fused_ranges<'q>(
    alloc: Global,
    query: &'q Select,
    text: &Text<'q>,
) -> Result<SelectRanges<'q>, NoMemory>
    requires { IsTextOf (select_tree query.now) text.now }
    ensures { IfOk result (λ ranges.
        AreRangesOf (select_tree query.now) ranges.plain (ranges_of ranges.fused.items)) }
{
    let mut ranges = plain_ranges(alloc, query, text)?;
    ranges.mark_used(text);
    fuse(&mut ranges.fused)?;
    Ok(ranges)
}

// Joins each range that isn't used and is the start of exactly one other with that one, as long as
// there is one, the first of them first. One pass from the front does it: joining two ranges leaves
// the number of ranges that start at each other place as it was.
fn fuse(ranges: &mut Vec<TextRange>) -> Result<(), NoMemory>
    requires followed { AreFollowed 0 ranges.old.items }
    requires ordered { AreOrdered [] (ranges_of ranges.old.items) }
    ensures { OnOk result (AreFused (IsMarked ranges.old.items)
        (ranges_of ranges.old.items) (ranges_of ranges.new.items)) }
{
    'numbers: for number in 0..ranges.len() {
        match only_follower(&ranges[number]) {
            Some(later) => join(ranges, number, later)?,
            None => {}
        }
    }
    ranges.retain(|range| !range.joined);
    Ok(())
}

// The range that a range is to be joined with: the only one that starts at it, where it isn't used.
fn only_follower(range: &TextRange) -> Option<usize>
    ensures some { IfSome result (λ later. range.now.followers ≡ One later) }
    ensures unused { IfSome result (λ later. range.now.used ≡ false) }
    ensures none { IfNone result ((later : ℕ) → range.now.followers ≡ One later
        → range.now.used ≡ true) }
{
    match range.followers {
        Followers::One(later) if !range.used => Some(later),
        _ => None,
    }
}

// Joins the range with this number and the later one, in the place of the later one.
fn join(ranges: &mut Vec<TextRange>, number: usize, later: usize) -> Result<(), NoMemory>
    requires before { number < later }
    requires within { later < length ranges.old.items }
    ensures { OnOk result (IsJoined number later ranges.old.items ranges.new.items) }
{
    let (start, parts) = leave(&mut ranges[number]);
    take_over(&mut ranges[later], start, parts)
}

// Gives up the start and the path of a range, which is joined with another.
fn leave<'q>(range: &mut TextRange<'q>) -> (Place<'q>, Vec<&'q Path>)
    ensures start { result.0 ≡ range.old.start }
    ensures parts { result.1.items ≡ range.old.parts.items }
    ensures joined { range.new.joined ≡ true }
{
    let alloc = *range.parts.allocator();
    let parts = mem::replace(&mut range.parts, Vec::new(alloc));
    range.joined = true;
    (range.start, parts)
}

// Takes over the start of a range, and its path in front of the own one.
fn take_over<'q>(
    range: &mut TextRange<'q>,
    start: Place<'q>,
    mut parts: Vec<&'q Path>,
) -> Result<(), NoMemory>
    ensures { OnOk result (TakesOver start.entry parts.entry.items range.old range.new) }
{
    parts.append(&mut range.parts)?;
    range.parts = parts;
    range.start = start;
    Ok(())
}
