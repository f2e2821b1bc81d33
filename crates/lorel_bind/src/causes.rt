ghost use Rattle.std.specs.Prelude.{◌≡◌, ◌-◌, ◌^◌, [], ◌∷◌, ◌++◌, min, map, List, ℕ, IfOk, IfErr};
ghost use Rattle.std.specs.Prelude.{OnOk, IfSome, IfNone, None};
ghost use Rattle.lore_base.specs.Names.{object_of};
ghost use Rattle.lore_base.specs.Paths.{path_tree, trees_of, leaves_of};
ghost use Rattle.lorel_trees.specs.Trees.{SelectTree};
ghost use Rattle.lorel_ranges.specs.Places.{named, Place as ThePlace};
ghost use Rattle.lorel_bind.specs.Refusals.{IsRefusedBy, leaves_in};
ghost use Rattle.lorel_ranges.specs.Views.{root_tree, place_tree, place_trees, texts};
ghost use Rattle.lorel_ranges.specs.Readings.{IsTextOf};
ghost use Rattle.lorel_bind.specs.inside.Causes.{places_of, ranged_of, HasNoted, HasMet};
ghost use Rattle.lorel_bind.specs.inside.Causes.{PassesText};

use crate::faults::BindFault;
use indexmap::IndexSet;
use lore_base::limits::{ITEMS, LEAVES};
use lore_base::{Names, NoMemory, OemText, Path, path_leaf_count};
use lorel_ranges::{Place, Root, Text};
use std::alloc::Global;

// Looks at what each path of a select starts at, at the path variables that items name, at the
// identifiers that are ranged, and at the numbers of items and path leaves. Answers the first cause
// that applies.
pub(crate) fn check_text(alloc: Global, text: &Text, names: &Names) -> Result<(), BindFault>
    ensures passes { (query : SelectTree) → IsTextOf query text.now
        → OnOk result (PassesText names.now query) }
    ensures refused { (query : SelectTree) → IsTextOf query text.now
        → IfErr result (IsRefusedBy names.now query) }
{
    let ranged = ranged_identifiers(alloc, text)?;
    let unknown = unknown_starts(text, names, &ranged.texts);
    if unknown.names {
        return Err(BindFault::UnknownName);
    }
    if unknown.variables || text.items.unknown {
        return Err(BindFault::UnknownVariable);
    }
    if ranged.doubled {
        return Err(BindFault::DuplicateVariable);
    }
    if ITEMS < text.item_count || (LEAVES as u64) < count_leaves(text) {
        return Err(BindFault::TooManyRanges);
    }
    Ok(())
}

// The identifiers that are ranged, and whether one is twice.
#[derive(Drop)]
struct Ranged<'q> {
    texts: IndexSet<&'q [u8]>,
    doubled: bool,
}

fn ranged_identifiers<'q>(alloc: Global, text: &Text<'q>) -> Result<Ranged<'q>, NoMemory>
    ensures { IfOk result (HasNoted (ranged_of text.now)) }
{
    let mut ranged = Ranged {
        texts: IndexSet::new(alloc),
        doubled: false,
    };
    ranged.note_all(text.from.ranged.as_slice())?;
    ranged.note_all(text.condition.ranged.as_slice())?;
    Ok(ranged)
}

impl<'q> Ranged<'q> {
    // Notes these identifiers behind those that were noted.
    fn note_all(&mut self, identifiers: &[&'q OemText]) -> Result<(), NoMemory>
        ensures { OnOk result ((earlier : List (List ℕ)) → HasNoted earlier self.old
            → HasNoted (earlier ++ texts identifiers.now) self.new) }
    {
        'identifiers: for identifier in identifiers {
            self.note(identifier)?;
        }
        Ok(())
    }

    // Notes one identifier.
    fn note(&mut self, identifier: &'q OemText) -> Result<(), NoMemory>
        ensures { OnOk result ((earlier : List (List ℕ)) → HasNoted earlier self.old
            → HasNoted (earlier ++ identifier.now ∷ []) self.new) }
    {
        let first = self.texts.insert(identifier.as_bytes())?;
        self.doubled |= !first;
        Ok(())
    }
}

// Whether some path starts at an identifier that is neither a variable in scope nor a name: at one
// that is ranged nowhere, and at one that is ranged elsewhere.
#[derive(Clone, Copy)]
struct Unknown {
    names: bool,
    variables: bool,
}

fn unknown_starts(text: &Text, names: &Names, ranged: &IndexSet<&[u8]>) -> Unknown
    ensures { HasMet names.now (texts ranged.now.keys) (places_of text.now) result }
{
    let mut unknown = Unknown {
        names: false,
        variables: false,
    };
    unknown.note_all(text.from.places.as_slice(), names, ranged);
    unknown.note_all(text.items.places.as_slice(), names, ranged);
    unknown.note_all(text.condition.places.as_slice(), names, ranged);
    unknown
}

impl Unknown {
    // Notes what these places start at, behind those that were noted.
    fn note_all(&mut self, places: &[Place], names: &Names, ranged: &IndexSet<&[u8]>)
        ensures { (earlier : List ThePlace)
            → HasMet names.now (texts ranged.now.keys) earlier self.old
            → HasMet names.now (texts ranged.now.keys)
            (earlier ++ place_trees places.now) self.new }
    {
        'places: for place in places {
            self.note(place, names, ranged);
        }
    }

    // Notes what one place starts at.
    fn note(&mut self, place: &Place, names: &Names, ranged: &IndexSet<&[u8]>)
        ensures { (earlier : List ThePlace)
            → HasMet names.now (texts ranged.now.keys) earlier self.old
            → HasMet names.now (texts ranged.now.keys)
            (earlier ++ place_tree place.now ∷ []) self.new }
    {
        match unbound(place.root, names) {
            Some(start) if ranged.contains(start.as_bytes()) => self.variables = true,
            Some(_) => self.names = true,
            None => {}
        }
    }
}

// The identifier of a start that is neither a variable in scope nor a name.
fn unbound<'q>(root: Root<'q>, names: &Names) -> Option<&'q OemText>
    ensures found { IfSome result (λ start.
        (root_tree root.entry ≡ named start.now) × (object_of names.now start.now ≡ None)) }
    ensures none { IfNone result ((start : List ℕ) → root_tree root.entry ≡ named start
        → object_of names.now start ≡ None → ⊥) }
{
    match root {
        Root::Named(start) if names.find(start).is_none() => Some(start),
        _ => None,
    }
}

// The number of path leaves. It stands still at the greatest number of its type.
fn count_leaves(text: &Text) -> u64
    ensures { result ≡ min (2 ^ 64 - 1) (leaves_in (places_of text.now)) }
{
    let from = leaves_of_places(text.from.places.as_slice());
    let cells = leaves_of_places(text.items.places.as_slice());
    let conditions = leaves_of_places(text.condition.places.as_slice());
    from.saturating_add(cells).saturating_add(conditions)
}

fn leaves_of_places(places: &[Place]) -> u64
    ensures { result ≡ min (2 ^ 64 - 1) (leaves_in (place_trees places.now)) }
{
    let mut count: u64 = 0;
    'places: for place in places {
        count = count.saturating_add(leaves_of_parts(place.parts));
    }
    count
}

fn leaves_of_parts(parts: &[Path]) -> u64
    ensures { result ≡ min (2 ^ 64 - 1) (leaves_of (trees_of (map path_tree parts.now))) }
{
    let mut count: u64 = 0;
    'parts: for part in parts {
        count = count.saturating_add(path_leaf_count(part));
    }
    count
}
