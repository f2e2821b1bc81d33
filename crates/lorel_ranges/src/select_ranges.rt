ghost use Rattle.std.specs.Prelude.{◌≡◌, ◌↔◌, ◌<◌, [], ◌∷◌, length, map};
ghost use Rattle.std.specs.Prelude.{Some, Contains, IfOk, OnOk};
ghost use Rattle.std.specs.List.{AllZip, flat_map};
ghost use Rattle.lore_base.specs.Paths.{path_tree};
ghost use Rattle.lorel_trees.specs.Trees.{SelectTree, from_tree, select_tree};
ghost use Rattle.lorel_ranges.specs.Places.{Place as ThePlace};
ghost use Rattle.lorel_ranges.specs.Ranges.{ArePlain, AreGathered, IsUsed, places};
ghost use Rattle.lorel_ranges.specs.Ranges.{path_ranges, from_item_ranges};
ghost use Rattle.lorel_ranges.specs.Views.{place_tree, place_trees, ranges_of};
ghost use Rattle.lorel_ranges.specs.Views.{shown_tree, shown_trees};
ghost use Rattle.lorel_ranges.specs.Readings.{IsTextOf};
ghost use Rattle.lorel_ranges.specs.inside.SelectRanges.{AreLinked, AreFresh};
ghost use Rattle.lorel_ranges.specs.inside.SelectRanges.{further, GainsFollower, ArePushed};
ghost use Rattle.lorel_ranges.specs.inside.SelectRanges.{IsMarked, AreMarked, IsNeededAt};
ghost use Rattle.lorel_ranges.specs.inside.SelectRanges.{IsNeededOf, IsFixedOf};
ghost use Rattle.lorel_ranges.specs.inside.SelectRanges.{part_range, item_ranges};

use crate::places::{Place, Root};
use crate::plain_places::PlainPlaces;
use crate::text::{Shown, Text};
use lore_base::{NoMemory, OemText, Path};
use lorel_trees::{FromItem, Select};
use std::alloc::Global;

/// A range of the text: it gives an object to its place, one that the parts reach from the object at
/// its start.
#[derive(Drop)]
pub struct TextRange<'q> {
    pub start: Place<'q>,
    pub parts: Vec<&'q Path>,
    pub place: Place<'q>,
    // What fusing asks of it.
    // Whether a cell shows its object or its word, or the word of one that starts at it, or a path
    // of the condition is fixed at it.
    pub(crate) used: bool,
    // The ranges that start at it.
    pub(crate) followers: Followers,
    // Whether it was joined with the only one that starts at it.
    pub(crate) joined: bool,
}

// Which ranges start at a place: none, the one with this number, or several.
#[derive(Clone, Copy)]
pub(crate) enum Followers {
    None,
    One(usize),
    Several,
}

impl Followers {
    // A further range starts there.
    fn and(self, number: usize) -> Followers
        ensures { result ≡ further self number }
    {
        match self {
            Followers::None => Followers::One(number),
            Followers::One(_) | Followers::Several => Followers::Several,
        }
    }
}

/// The ranges of a select, fused, and the places of its plain ones.
#[derive(Drop)]
pub struct SelectRanges<'q> {
    /// The places of the plain ones, by which paths are fixed.
    pub plain: PlainPlaces<'q>,
    /// The ranges themselves: plain ones while they are made and marked, fused in the end.
    pub fused: Vec<TextRange<'q>>,
}

// Makes the plain ranges of a select: first those of its from items, then those of its items.
pub(crate) fn plain_ranges<'q>(
    alloc: Global,
    query: &'q Select,
    text: &Text<'q>,
) -> Result<SelectRanges<'q>, NoMemory>
    requires { IsTextOf (select_tree query.now) text.now }
    ensures fresh { IfOk result AreFresh }
    ensures plain { IfOk result (λ ranges.
        ArePlain (select_tree query.now) (ranges_of ranges.fused.items)) }
{
    let mut ranges = SelectRanges::new(alloc);
    ranges.add_items(
        alloc,
        query.tail.ranges.as_slice(),
        text.from.places.as_slice(),
    )?;
    ranges.add_paths(alloc, text.items.places.as_slice())?;
    Ok(ranges)
}

impl<'q> SelectRanges<'q> {
    // No range. Takes no memory.
    fn new(alloc: Global) -> SelectRanges<'q>
        ensures none { result.fused.items ≡ [] }
        ensures fresh { AreFresh result }
    {
        SelectRanges {
            plain: PlainPlaces::new(alloc),
            fused: Vec::new(alloc),
        }
    }

    // Makes the ranges of from items, whose paths stand for these places.
    fn add_items(
        &mut self,
        alloc: Global,
        items: &'q [FromItem],
        paths: &[Place<'q>],
    ) -> Result<(), NoMemory>
        requires fresh { AreFresh self.old }
        requires paths { length paths.now ≡ length items.now }
        ensures fresh { OnOk result (AreFresh self.new) }
        ensures made { OnOk result (AreGathered (ranges_of self.old.fused.items)
            (item_ranges (map from_tree items.now) (place_trees paths.now))
            (ranges_of self.new.fused.items)) }
    {
        'items: for (number, item) in items.iter().enumerate() {
            self.add_item(alloc, &item.variable, paths[number])?;
        }
        Ok(())
    }

    // Makes the ranges of a from item: one if it has a variable, else those of its path.
    fn add_item(
        &mut self,
        alloc: Global,
        variable: &'q Option<OemText>,
        path: Place<'q>,
    ) -> Result<(), NoMemory>
        requires fresh { AreFresh self.old }
        ensures fresh { OnOk result (AreFresh self.new) }
        ensures made { OnOk result (AreGathered (ranges_of self.old.fused.items)
            (from_item_ranges variable.now (place_tree path.entry))
            (ranges_of self.new.fused.items)) }
    {
        match variable {
            Some(variable) => self.add_variable(alloc, variable, path),
            None => self.add_path(alloc, path),
        }
    }

    // Makes the ranges of paths.
    fn add_paths(&mut self, alloc: Global, paths: &[Place<'q>]) -> Result<(), NoMemory>
        requires fresh { AreFresh self.old }
        ensures fresh { OnOk result (AreFresh self.new) }
        ensures made { OnOk result (AreGathered (ranges_of self.old.fused.items)
            (flat_map path_ranges (place_trees paths.now)) (ranges_of self.new.fused.items)) }
    {
        'paths: for path in paths {
            self.add_path(alloc, *path)?;
        }
        Ok(())
    }

    // Makes the range of a from item with a variable, unless the variable has one.
    fn add_variable(
        &mut self,
        alloc: Global,
        variable: &'q OemText,
        path: Place<'q>,
    ) -> Result<(), NoMemory>
        requires fresh { AreFresh self.old }
        ensures fresh { OnOk result (AreFresh self.new) }
        ensures made { OnOk result (AreGathered (ranges_of self.old.fused.items)
            (from_item_ranges (Some variable.now) (place_tree path.entry))
            (ranges_of self.new.fused.items)) }
    {
        let place = Place {
            root: Root::Ranged(variable),
            parts: &path.parts[..0],
        };
        if self.plain.find(place).is_some() {
            return Ok(());
        }
        let parts = references(alloc, path.parts)?;
        self.push(path.prefix(0), parts, place)?;
        self.plain.add_variable(variable, place)?;
        Ok(())
    }

    // Makes a range of each prefix of the path that isn't one yet.
    fn add_path(&mut self, alloc: Global, path: Place<'q>) -> Result<(), NoMemory>
        requires fresh { AreFresh self.old }
        ensures fresh { OnOk result (AreFresh self.new) }
        ensures made { OnOk result (AreGathered (ranges_of self.old.fused.items)
            (path_ranges (place_tree path.entry)) (ranges_of self.new.fused.items)) }
    {
        'prefixes: for len in 0..path.parts.len() {
            self.add_prefix(alloc, path, len)?;
        }
        Ok(())
    }

    // Makes a range of the part of a path behind so many others, unless the prefix is one.
    fn add_prefix(&mut self, alloc: Global, path: Place<'q>, len: usize) -> Result<(), NoMemory>
        requires within { len < length path.parts.now }
        requires fresh { AreFresh self.old }
        ensures fresh { OnOk result (AreFresh self.new) }
        ensures made { OnOk result (AreGathered (ranges_of self.old.fused.items)
            (part_range (place_tree path.entry) len ∷ []) (ranges_of self.new.fused.items)) }
    {
        let place = path.prefix(len + 1);
        if self.plain.find_prefix(place).is_some() {
            return Ok(());
        }
        let parts = references(alloc, &path.parts[len..len + 1])?;
        self.push(path.prefix(len), parts, place)?;
        self.plain.add_prefix(place)?;
        Ok(())
    }

    // Puts a range behind those that are there. Its place is still to be put behind theirs.
    fn push(
        &mut self,
        start: Place<'q>,
        parts: Vec<&'q Path>,
        place: Place<'q>,
    ) -> Result<(), NoMemory>
        requires fresh { AreFresh self.old }
        ensures { OnOk result (ArePushed self.old self.new (place_tree start.entry)
            (map (λ part. path_tree part.now) parts.entry.items) (place_tree place.entry)) }
    {
        let number = self.fused.len();
        self.add_follower(start, number);
        self.fused.push(TextRange {
            start,
            parts,
            place,
            used: false,
            followers: Followers::None,
            joined: false,
        })?;
        Ok(())
    }

    // A further range starts at the one with this place, if there is one.
    fn add_follower(&mut self, start: Place<'q>, number: usize)
        requires linked { AreLinked self.old }
        ensures plain { self.new.plain ≡ self.old.plain }
        ensures gained { AllZip (GainsFollower (place_tree start.entry) number)
            self.old.fused.items self.new.fused.items }
    {
        if let Some(earlier) = self.plain.find(start) {
            let followers = self.fused[earlier].followers;
            self.fused[earlier].followers = followers.and(number);
        }
    }

    // Marks the ranges whose objects cells show, those that are needed for words that cells show, and
    // those that paths of the condition are fixed at.
    pub(crate) fn mark_used(&mut self, text: &Text<'q>)
        requires fresh { AreFresh self.old }
        ensures linked { AreLinked self.new }
        ensures plain { self.new.plain ≡ self.old.plain }
        ensures ranges { ranges_of self.new.fused.items ≡ ranges_of self.old.fused.items }
        ensures marked { (query : SelectTree) (place : ThePlace) → IsTextOf query text.now
            → Contains (places (ranges_of self.old.fused.items)) place
            → IsMarked self.new.fused.items place
            ↔ IsUsed query (ranges_of self.old.fused.items) place }
    {
        self.mark_places(text.items.places.as_slice());
        self.mark_words(text.items.cells.as_slice());
        self.mark_fixed(text.condition.places.as_slice());
    }

    // Marks the ranges with these places.
    fn mark_places(&mut self, places: &[Place<'q>])
        requires linked { AreLinked self.old }
        ensures { AreMarked self.old self.new (Contains (place_trees places.now)) }
    {
        'places: for place in places {
            self.mark(*place);
        }
    }

    // Marks the ranges whose words cells show, and those that these start at.
    fn mark_words(&mut self, shown: &[Shown<'q>])
        requires linked { AreLinked self.old }
        ensures { AreMarked self.old self.new
            (IsNeededOf (ranges_of self.old.fused.items) (shown_trees shown.now)) }
    {
        'shown: for cell in shown {
            self.mark_cell(*cell);
        }
    }

    // Marks the range whose word a cell shows, if it shows one, and the range that this starts at.
    fn mark_cell(&mut self, cell: Shown<'q>)
        requires linked { AreLinked self.old }
        ensures { AreMarked self.old self.new
            (IsNeededOf (ranges_of self.old.fused.items) (shown_tree cell.entry ∷ [])) }
    {
        match cell {
            Shown::Object(_) => {}
            Shown::Word(place) => self.mark_word(place),
        }
    }

    // Marks the range with this place, if there is one, and the range that it starts at.
    fn mark_word(&mut self, place: Place<'q>)
        requires linked { AreLinked self.old }
        ensures { AreMarked self.old self.new
            (IsNeededAt (ranges_of self.old.fused.items) (place_tree place.entry)) }
    {
        if let Some(number) = self.plain.find(place) {
            let start = self.fused[number].start;
            self.mark(place);
            self.mark(start);
        }
    }

    // Marks the ranges that these paths are fixed at.
    fn mark_fixed(&mut self, paths: &[Place<'q>])
        requires linked { AreLinked self.old }
        ensures { AreMarked self.old self.new
            (IsFixedOf (ranges_of self.old.fused.items) (place_trees paths.now)) }
    {
        'paths: for path in paths {
            let path = *path;
            let len = self.plain.fixed_len(path);
            self.mark(path.prefix(len));
        }
    }

    // Marks the range with this place, if there is one.
    fn mark(&mut self, place: Place<'q>)
        requires linked { AreLinked self.old }
        ensures { AreMarked self.old self.new (λ other. other ≡ place_tree place.entry) }
    {
        if let Some(number) = self.plain.find(place) {
            self.fused[number].used = true;
        }
    }
}

// References to the parts of a path.
fn references<'q>(alloc: Global, parts: &'q [Path]) -> Result<Vec<&'q Path>, NoMemory>
    ensures { IfOk result (λ list. map (λ part. part.now) list.items ≡ parts.now) }
{
    let mut list = Vec::with_capacity(alloc, parts.len())?;
    'parts: for part in parts {
        list.push(part)?;
    }
    Ok(list)
}
