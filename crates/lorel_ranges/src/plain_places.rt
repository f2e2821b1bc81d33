ghost use Rattle.std.specs.Prelude.{◌≡◌, ◌≤◌, [], ◌∷◌, ◌++◌, length, drop};
ghost use Rattle.std.specs.Prelude.{Some, slice_get, All, Contains, IfSome, IfNone, OnOk, List};
ghost use Rattle.lorel_ranges.specs.Places.{ranged, at_root};
ghost use Rattle.lorel_ranges.specs.Ranges.{PlacedRange, IsFixed, places};
ghost use Rattle.lorel_ranges.specs.Views.{place_tree, place_trees, prefix_of};
ghost use Rattle.lorel_ranges.specs.inside.Indexes.{IsVariable, IsPrefix};

use crate::places::{Place, Root, same_place};
use crate::variables::Variables;
use lore_base::{NoMemory, OemText};
use std::alloc::Global;
use std::marker::Model;

/// The places of the plain ranges of a select, each once. Contracts see it as the list of these.
// They stand by their numbers. Those of object variables are found by the variable; the others, of
// which a select has at most as many as path leaves, one by one.
#[derive(Drop)]
pub struct PlainPlaces<'q> {
    places: Vec<Place<'q>>,
    prefixes: Vec<usize>,
    variables: Variables<'q>,
}

impl<'q> Model for PlainPlaces<'q> {
    ghost use Rattle.std.specs.Prelude.{List};
    ghost use Rattle.std.specs.Coded.{codes};
    ghost use Rattle.lore_base.specs.contracts.paths.Path as path_contract;
    ghost use Rattle.lorel_ranges.specs.declared.places.Place.{Place};
    ghost use Rattle.lorel_ranges.specs.Views.{place_trees};
    ghost use Rattle.lorel_ranges.specs.inside.Indexes.{IsIndexed};

    ghost Value = { List Place };

    ghost coded = { Prim.hlevel (codes, path_contract.the_row.coded) };

    ghost view = { λ plain. plain.places.items };

    ghost invariant = { λ plain.
        IsIndexed (place_trees plain.places.items) plain.prefixes.items plain.variables };
}

// The first of these numbers that the place has.
fn number_of(places: &[Place], numbers: &[usize], place: Place) -> Option<usize>
    requires { All (IsPrefix (place_trees places.now)) numbers.now }
    ensures some { IfSome result (λ number.
        slice_get (place_trees places.now) number ≡ Some (place_tree place.entry)) }
    ensures none { IfNone result (All (λ number.
        slice_get (place_trees places.now) number ≡ Some (place_tree place.entry) → ⊥) numbers.now) }
{
    'numbers: for number in numbers {
        if same_place(&places[*number], &place) {
            return Some(*number);
        }
    }
    None
}

impl<'q> PlainPlaces<'q> {
    // No place. Takes no memory.
    pub(crate) fn new(alloc: Global) -> PlainPlaces<'q>
        ensures { result ≡ [] }
    {
        PlainPlaces {
            places: Vec::new(alloc),
            prefixes: Vec::new(alloc),
            variables: Variables::new(alloc),
        }
    }

    // The number of this place; None exactly where it isn't there.
    pub(crate) fn find(&self, place: Place<'q>) -> Option<usize>
        ensures some { IfSome result (λ number.
            slice_get (place_trees self.now) number ≡ Some (place_tree place.entry)) }
        ensures none { IfNone result (Contains (place_trees self.now) (place_tree place.entry) → ⊥) }
    {
        match place.root {
            Root::Ranged(variable) if place.parts.is_empty() => self.variables.number(variable),
            _ => self.find_prefix(place),
        }
    }

    // The number of this place, unless it is a variable's.
    pub(crate) fn find_prefix(&self, place: Place<'q>) -> Option<usize>
        ensures some { IfSome result (λ number.
            slice_get (place_trees self.now) number ≡ Some (place_tree place.entry)) }
        ensures none { IfNone result (Contains (place_trees self.now) (place_tree place.entry)
            → IsVariable (place_tree place.entry)) }
    {
        number_of(self.places.as_slice(), self.prefixes.as_slice(), place)
    }

    /// How many parts of a path make its longest prefix that is a range; 0 where none is.
    pub fn fixed_len(&self, path: Place<'q>) -> usize
        ensures within { result ≤ length path.entry.parts.now }
        ensures fixed { (ranges : List PlacedRange) → places ranges ≡ place_trees self.now
            → IsFixed ranges (place_tree path.entry) (prefix_of result (place_tree path.entry))
            (drop result (place_tree path.entry).parts) }
    {
        let mut len = path.parts.len();
        'prefixes: while 0 < len {
            if self.find_prefix(path.prefix(len)).is_some() {
                return len;
            }
            len -= 1;
        }
        0
    }

    // Puts the place of a variable behind the others.
    pub(crate) fn add_variable(
        &mut self,
        variable: &'q OemText,
        place: Place<'q>,
    ) -> Result<(), NoMemory>
        requires is_its { place_tree place ≡ at_root (ranged variable.now) }
        requires is_new { Contains (place_trees self.old) (place_tree place) → ⊥ }
        ensures { OnOk result (self.new ≡ self.old ++ place.entry ∷ []) }
    {
        let number = self.places.len();
        self.places.reserve(1)?;
        self.variables.add(variable, number)?;
        self.places.push(place)?;
        Ok(())
    }

    // Puts a place with parts behind the others.
    pub(crate) fn add_prefix(&mut self, place: Place<'q>) -> Result<(), NoMemory>
        requires { (place_tree place).parts ≡ [] → ⊥ }
        ensures { OnOk result (self.new ≡ self.old ++ place.entry ∷ []) }
    {
        let number = self.places.len();
        self.places.reserve(1)?;
        self.prefixes.push(number)?;
        self.places.push(place)?;
        Ok(())
    }
}
