ghost use Rattle.std.specs.Prelude.{ℕ, List, IfOk, IfErr, OnOk};
ghost use Rattle.lorel_trees.specs.Trees.{select_tree};
ghost use Rattle.lorel_bound.specs.Bound.{bound_tree};
ghost use Rattle.lorel_ranges.specs.Texts.{IsShallow};
ghost use Rattle.lorel_bind.specs.Bindings.{IsBinding};
ghost use Rattle.lorel_bound.specs.Runnable.{IsRunnable};
ghost use Rattle.lorel_bind.specs.Refusals.{StartsNowhere, IsAccepted, IsRefusedBy};
ghost use Rattle.lorel_ranges.specs.Views.{ranges_of};
ghost use Rattle.lorel_ranges.specs.Readings.{IsTextOf};
ghost use Rattle.lorel_ranges.specs.SelectRanges.{AreRangesOf};

use crate::causes::check_text;
use crate::conditions::Binder;
use crate::faults::BindFault;
use crate::slots::Slots;
use lore_base::limits::RANGES;
use lore_base::{Names, NoMemory};
use lorel_bound::Bound;
use lorel_ranges::{PlainPlaces, Text, fused_ranges, text_of};
use lorel_trees::Select;
use std::alloc::Global;

/// Binds a select: finds what each of its paths starts at, makes its ranges, fuses those whose
/// objects nobody looks at, and gives each that is left a slot. An item that names a path variable
/// shows the word by which the range of that variable is reached: neither this range nor the one that
/// it starts at is fused into what follows.
///
/// It answers the first cause that applies: a path starts at an identifier that is neither a
/// variable in scope nor a name, and is ranged nowhere (UnknownName), or elsewhere
/// (UnknownVariable), or an item names a path variable that no from item has (UnknownVariable too);
/// an identifier is ranged twice (DuplicateVariable); or there are more than 8 ranges after fusing,
/// more than 8 items, or more than 64 path leaves (TooManyRanges). It takes steps linear in the text
/// of the select.
pub fn bind(alloc: Global, query: &Select, names: &Names) -> Result<Bound, BindFault>
    requires shallow { IsShallow (select_tree query.now) }
    ensures binding { IfOk result (λ bound.
        IsBinding names.now (select_tree query.now) (bound_tree bound)) }
    ensures runnable { IfOk result (λ bound. IsRunnable (bound_tree bound)) }
    ensures accepted { OnOk result (IsAccepted names.now (select_tree query.now)) }
    ensures refused { IfErr result (IsRefusedBy names.now (select_tree query.now)) }
{
    let text = text_of(alloc, query)?;
    check_text(alloc, &text, names)?;
    let ranges = fused_ranges(alloc, query, &text)?;
    if RANGES < ranges.fused.len() {
        return Err(BindFault::TooManyRanges);
    }
    let slots = Slots {
        names,
        fused: ranges.fused,
    };
    Ok(bound_select(alloc, query, &text, &ranges.plain, &slots)?)
}

// The select by slots.
fn bound_select<'q>(
    alloc: Global,
    query: &'q Select,
    text: &Text<'q>,
    plain: &PlainPlaces<'q>,
    slots: &Slots<'q, '_>,
) -> Result<Bound, NoMemory>
    requires shallow { IsShallow (select_tree query.now) }
    requires text { IsTextOf (select_tree query.now) text.now }
    requires ready { AreRangesOf (select_tree query.now) plain.now
        (ranges_of slots.now.fused.items) }
    requires somewhere { (start : List ℕ)
        → StartsNowhere slots.now.names.now (select_tree query.now) start → ⊥ }
    ensures { IfOk result (λ bound.
        IsBinding slots.now.names.now (select_tree query.now) (bound_tree bound)) }
{
    let ranges = slots.ranges(alloc)?;
    let cells = slots.cells(alloc, text.items.cells.as_slice())?;
    let binder = Binder {
        variables: &text.variables,
        plain,
        slots,
    };
    let cond = binder.condition(alloc, &query.tail.cond)?;
    Ok(Bound {
        ranges,
        cells,
        cond,
    })
}
