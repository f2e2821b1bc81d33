ghost use Rattle.std.specs.Prelude.{◌≡◌, ◌≢◌, ℕ, ◌≤◌, length, map, slice_get, Some, Contains, IfSome, IfNone};
ghost use Rattle.std.specs.Prelude.{IfOk};
ghost use Rattle.std.specs.List.{AllZip};
ghost use Rattle.lore_base.specs.Paths.{path_tree, seq, trees_of};
ghost use Rattle.lorel_bind.specs.Types.{Oid as TheOid, RANGES as THE_RANGES};
ghost use Rattle.lorel_bind.specs.Types.starts;
ghost use Rattle.lorel_bound.specs.Bound.{range_tree};
ghost use Rattle.lorel_ranges.specs.Places.{at_root, quantified};
ghost use Rattle.lorel_ranges.specs.Ranges.{places};
ghost use Rattle.lorel_bind.specs.Bindings.{IsStartOfPlace};
ghost use Rattle.lorel_ranges.specs.Views.{place_tree, range_of, ranges_of};
ghost use Rattle.lorel_ranges.specs.Views.{shown_tree, shown_trees};
ghost use Rattle.lorel_bind.specs.inside.Slots.{Starts, StartsAny, BindsRange, BindsCell};

use lore_base::limits::RANGES;
use lore_base::{Names, NoMemory, Oid, Path, PathList, TryCopy};
use lorel_bound::{BoundStart, CellList, CellOf, Range, RangeList, Start};
use lorel_ranges::{Place, Root, Shown, TextRange, same_place};
use std::alloc::Global;

// The slots of the fused ranges: that of a place is its number among them.
#[derive(Drop)]
pub(crate) struct Slots<'q, 'n> {
    pub(crate) names: &'n Names,
    pub(crate) fused: Vec<TextRange<'q>>,
    ghost few: { length fused.items ≤ THE_RANGES },
}

impl<'q, 'n> Slots<'q, 'n> {
    // The slot of the range with this place, or 0 where there is none.
    fn slot(&self, place: Place<'q>) -> u32
        ensures { Contains (places (ranges_of self.now.fused.items)) (place_tree place.entry)
            → slice_get (places (ranges_of self.now.fused.items)) result ≡ Some (place_tree place.entry) }
    {
        'fused: for (slot, range) in self.fused.iter().enumerate() {
            if same_place(&range.place, &place) {
                return slot as u32;
            }
        }
        0
    }

    // What a place starts at: the object of a name, or the slot of its range.
    pub(crate) fn start(&self, place: Place<'q>) -> Start
        ensures { Starts self.now.names.now (ranges_of self.now.fused.items) (place_tree place.entry)
            result }
    {
        match self.named(place) {
            Some(oid) => Start::Named(oid),
            None => Start::Slot(self.slot(place)),
        }
    }

    // The same in a condition, where it may also be the object of a quantifier.
    pub(crate) fn bound_start(&self, place: Place<'q>) -> BoundStart
        ensures { StartsAny self.now.names.now (ranges_of self.now.fused.items) (place_tree place.entry)
            result }
    {
        match quantifier_of(place) {
            Some(depth) => BoundStart::Quantified(depth),
            None => match self.start(place) {
                Start::Named(oid) => BoundStart::Named(oid),
                Start::Slot(slot) => BoundStart::Slot(slot),
            },
        }
    }

    // The object of a place that is a name.
    fn named(&self, place: Place<'q>) -> Option<Oid>
        ensures some { IfSome result (λ oid. IsStartOfPlace self.now.names.now
            (ranges_of self.now.fused.items) (place_tree place.entry) (starts.Named oid)) }
        ensures none { IfNone result ((oid : TheOid) → IsStartOfPlace self.now.names.now
            (ranges_of self.now.fused.items) (place_tree place.entry) (starts.Named oid) → ⊥) }
    {
        match place.root {
            Root::Named(name) if place.parts.is_empty() => self.names.find(name),
            _ => None,
        }
    }

    // The ranges by slots.
    pub(crate) fn ranges(&self, alloc: Global) -> Result<RangeList, NoMemory>
        ensures { IfOk result (λ ranges.
            AllZip (BindsRange self.now.names.now (ranges_of self.now.fused.items))
            (ranges_of self.now.fused.items) (map range_tree ranges)) }
    {
        let mut ranges = RangeList::with_capacity(alloc, self.fused.len())?;
        'fused: for range in &self.fused {
            ranges.push(self.range(alloc, range)?)?;
        }
        Ok(ranges)
    }

    // A range by slots.
    fn range(&self, alloc: Global, range: &TextRange<'q>) -> Result<Range, NoMemory>
        ensures { IfOk result (λ bound.
            BindsRange self.now.names.now (ranges_of self.now.fused.items) (range_of range.now)
            (range_tree bound)) }
    {
        let path = joined_path(alloc, range.parts.as_slice())?;
        let start = self.start(range.start);
        Ok(Range { start, path })
    }

    // The cells by slots.
    pub(crate) fn cells(&self, alloc: Global, shown: &[Shown<'q>]) -> Result<CellList, NoMemory>
        ensures { IfOk result (λ cells.
            AllZip (BindsCell self.now.names.now (ranges_of self.now.fused.items))
            (shown_trees shown.now) cells) }
    {
        let mut cells = CellList::with_capacity(alloc, shown.len())?;
        'cells: for cell in shown {
            cells.push(self.cell(*cell))?;
        }
        Ok(cells)
    }

    // A cell by slots.
    fn cell(&self, shown: Shown<'q>) -> CellOf
        ensures { BindsCell self.now.names.now (ranges_of self.now.fused.items)
            (shown_tree shown.entry) result }
    {
        match shown {
            Shown::Object(place) => CellOf::Object(self.start(place)),
            Shown::Word(place) => CellOf::PathOf(self.slot(place)),
        }
    }
}

// The quantifier whose object is at the place.
fn quantifier_of(place: Place) -> Option<u32>
    ensures some { IfSome result (λ depth. place_tree place.entry ≡ at_root (quantified depth)) }
    ensures none { IfNone result ((depth : ℕ) → place_tree place.entry ≢ at_root (quantified depth)) }
{
    match place.root {
        Root::Quantified(depth) if place.parts.is_empty() => Some(depth),
        _ => None,
    }
}

// The path of these parts, one after another.
fn joined_path(alloc: Global, parts: &[&Path]) -> Result<Path, NoMemory>
    ensures { IfOk result (λ path.
        path_tree path ≡ seq (trees_of (map (λ part. path_tree part.now) parts.now))) }
{
    let mut list = PathList::new(alloc);
    'parts: for part in parts {
        list.push(part.try_copy(alloc)?)?;
    }
    Ok(Path::Seq(list))
}
