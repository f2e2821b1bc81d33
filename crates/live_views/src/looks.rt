ghost use Rattle.std.specs.Prelude.{◌≡◌, ◌⊎◌, ◌↔◌, ℕ, List, [], ◌∷◌, ◌++◌, Contains, IsTrue, IfOk};
ghost use Rattle.std.specs.Prelude.{OnOk};
ghost use Rattle.lorel_trees.specs.Trees.{SelectTree, select_tree};
ghost use Rattle.lorel_ranges.specs.Places.{Place as ThePlace, named};
ghost use Rattle.lorel_ranges.specs.Texts.{IsShallow};
ghost use Rattle.lorel_ranges.specs.Views.{root_tree, place_tree, place_trees};
ghost use Rattle.live_views.specs.Types.{Delta as TheDelta};
ghost use Rattle.live_views.specs.Concerns.{Concerns};
ghost use Rattle.live_views.specs.inside.Looks.{IsLookOf, LooksAt};
ghost use Rattle.live_views.specs.inside.Touched.{TellsTouched};

use crate::comparisons::compares_values;
use crate::concerning::{some_turned, takes_some};
use crate::steps::StepPatterns;
use crate::touched::Touched;
use lore_base::{NoMemory, TextList, TryCopy};
use lorel_ranges::{Place, Root, text_of};
use lorel_trees::Select;
use std::alloc::Global;

// What a select looks at: the names that its paths start at, their steps, and whether it compares
// values.
#[derive(Drop)]
pub(crate) struct Looks {
    pub starts: TextList,
    pub steps: StepPatterns,
    pub compares: bool,
}

impl Looks {
    // What this select looks at.
    pub(crate) fn of(alloc: Global, select: &Select) -> Result<Looks, NoMemory>
        requires shallow { IsShallow (select_tree select.now) }
        ensures { IfOk result (IsLookOf (select_tree select.now)) }
    {
        let text = text_of(alloc, select)?;
        let mut looks = Looks::new(alloc, compares_values(select));
        looks.add_places(alloc, text.from.places.as_slice())?;
        looks.add_places(alloc, text.items.places.as_slice())?;
        looks.add_places(alloc, text.condition.places.as_slice())?;
        Ok(looks)
    }

    // No place yet.
    fn new(alloc: Global, compares: bool) -> Looks
        ensures places { LooksAt [] result }
        ensures compares { result.compares ≡ compares }
    {
        Looks {
            starts: TextList::new(alloc),
            steps: StepPatterns::new(alloc),
            compares,
        }
    }

    fn add_places(&mut self, alloc: Global, places: &[Place]) -> Result<(), NoMemory>
        ensures places { OnOk result ((earlier : List ThePlace) → LooksAt earlier self.old
            → LooksAt (earlier ++ place_trees places.now) self.new) }
        ensures compares { OnOk result (self.new.compares ≡ self.old.compares) }
    {
        'places: for place in places {
            self.add_place(alloc, place)?;
        }
        Ok(())
    }

    fn add_place(&mut self, alloc: Global, place: &Place) -> Result<(), NoMemory>
        ensures places { OnOk result ((earlier : List ThePlace) → LooksAt earlier self.old
            → LooksAt (earlier ++ place_tree place.now ∷ []) self.new) }
        ensures compares { OnOk result (self.new.compares ≡ self.old.compares) }
    {
        add_start(alloc, &mut self.starts, place.root)?;
        self.steps.add_parts(alloc, place.parts)
    }

    // Whether something is touched that the select looks at.
    pub(crate) fn are_touched(&self, touched: &Touched) -> bool
        ensures { (query : SelectTree) (labels : List (List ℕ)) (delta : TheDelta)
            → IsLookOf query self.now → TellsTouched labels delta touched.now
            → IsTrue result ↔ Concerns labels query delta }
    {
        if some_turned(touched.delta, self.starts.as_slice()) {
            return true;
        }
        if takes_some(&self.steps, touched.edges, touched.texts.as_slice()) {
            return true;
        }
        self.compares && touched.values
    }
}

// Adds the name that a path starts at, if it starts at one.
fn add_start(alloc: Global, starts: &mut TextList, root: Root) -> Result<(), NoMemory>
    ensures { OnOk result ((name : List ℕ) → Contains starts.new name
        ↔ (Contains starts.old name ⊎ (root_tree root.entry ≡ named name))) }
{
    match root {
        Root::Named(name) => starts.push(name.try_copy(alloc)?),
        Root::Ranged(_) => Ok(()),
        Root::Quantified(_) => Ok(()),
    }
}
