ghost use Rattle.std.specs.Prelude.{◌≡◌, [], ◌∷◌, ◌++◌, map, option_map, IfOk, OnOk};
ghost use Rattle.lorel_trees.specs.Trees.{from_tree};
ghost use Rattle.lorel_ranges.specs.Places.{at_root, ranged, item_path_variables, path_variables};
ghost use Rattle.lorel_ranges.specs.Places.{word_place};
ghost use Rattle.lorel_ranges.specs.Views.{place_tree};
ghost use Rattle.lorel_ranges.specs.inside.Scopes.{places_found, FindAlike};

use crate::places::{Place, Root};
use indexmap::IndexMap;
use lore_base::{NoMemory, OemText, Path};
use lorel_trees::FromItem;
use std::alloc::Global;

// The path variables of from items, each with the place of its range.
#[derive(Drop)]
pub(crate) struct PathVariables<'q> {
    places: IndexMap<&'q [u8], Place<'q>>,
}

impl<'q> PathVariables<'q> {
    // Those of from items. Of two with one name the first counts.
    pub(crate) fn from_items(
        alloc: Global,
        items: &'q [FromItem],
    ) -> Result<PathVariables<'q>, NoMemory>
        ensures { IfOk result (λ variables.
            FindAlike (places_found variables) (path_variables (map from_tree items.now))) }
    {
        let mut variables = PathVariables::new(alloc);
        'items: for item in items {
            variables.add_item(item)?;
        }
        Ok(variables)
    }

    // No path variable. Takes no memory.
    fn new(alloc: Global) -> PathVariables<'q>
        ensures { places_found result ≡ [] }
    {
        PathVariables {
            places: IndexMap::new(alloc),
        }
    }

    // The place of the variable's range; None exactly where no from item has the variable.
    pub(crate) fn place(&self, variable: &OemText) -> Option<Place<'q>>
        ensures { option_map place_tree result ≡ word_place (places_found self.now) variable.now }
    {
        self.places.get(variable.as_bytes()).copied()
    }

    // Adds the path variable of a from item, if it has one.
    fn add_item(&mut self, item: &'q FromItem) -> Result<(), NoMemory>
        ensures { OnOk result (FindAlike (places_found self.new)
            (places_found self.old ++ item_path_variables item.now.word item.now.variable)) }
    {
        match (&item.word, &item.variable) {
            (Some(own), Some(variable)) => {
                self.add_first(own, variable_place(variable, item.path.parts.as_slice()))
            }
            _ => Ok(()),
        }
    }

    // Adds a path variable, unless it is there.
    fn add_first(&mut self, own: &'q OemText, place: Place<'q>) -> Result<(), NoMemory>
        ensures { OnOk result (FindAlike (places_found self.new)
            (places_found self.old ++ (own.now, place_tree place.entry) ∷ [])) }
    {
        if self.place(own).is_none() {
            self.places.insert(own.as_bytes(), place)?;
        }
        Ok(())
    }
}

// The place of an object variable. Its parts are none of those of this path.
fn variable_place<'q>(variable: &'q OemText, parts: &'q [Path]) -> Place<'q>
    ensures { place_tree result ≡ at_root (ranged variable.now) }
{
    Place {
        root: Root::Ranged(variable),
        parts: &parts[..0],
    }
}
