ghost use Rattle.std.specs.Prelude.{◌≡◌, ◌≢◌, ◌↔◌, ℕ, ◌<◌, ◌≤◌, List, [], ◌∷◌, length, Some};
ghost use Rattle.std.specs.Prelude.{slice_get, slice_index_or, IsTrue, IfOk, OnOk};
ghost use Rattle.std.specs.List.Sorted.{IsNonDecreasingBy};
ghost use Rattle.indexmap.specs.IndexMap.{get};
ghost use Rattle.graph_search.specs.Closures.{IsMarked};
ghost use Rattle.path_expr.specs.Machines.{IsIn};
ghost use Rattle.least_words.specs.Types.{Label as TheLabel, Place as ThePlace};
ghost use Rattle.least_words.specs.MachineWords.{same_oid};
ghost use Rattle.least_words.specs.inside.Groups.{words_of, found_of, AreBack, AreMarked, IsLast};
ghost use Rattle.least_words.specs.inside.Groups.{Opens, IsOrderly, IsAhead, Follows};

use crate::arcs::Arc;
use indexmap::IndexMap;
use lore_base::{Label, NoMemory, Oid};
use path_expr::States;
use std::alloc::Global;

// An object, and the states that were new when the word of the group led to it.
#[derive(Clone, Copy)]
pub(crate) struct Place {
    pub(crate) oid: Oid,
    pub(crate) states: States,
    pub(crate) group: usize,
}

// What a group's word is made of: the word of an earlier group, and a label behind it. Groups are
// numbered from 0 on; the first one, of the empty word, has no origin.
#[derive(Clone, Copy)]
pub(crate) struct Origin {
    pub(crate) group: usize,
    pub(crate) label: Label,
}

// What a search has found: each object with all states that it was met under, the places in the
// order of discovery, which is that of their groups, and the origins of all groups but the first.
#[derive(Drop)]
pub(crate) struct Groups {
    pub(crate) marked: IndexMap<Oid, States>,
    pub(crate) places: Vec<Place>,
    pub(crate) origins: Vec<Origin>,
}

// The states that the object is marked with.
fn states_of(marked: &IndexMap<Oid, States>, oid: Oid) -> States
    ensures { (state : ℕ) → IsIn result state ↔ IsMarked IsIn (get same_oid marked.now oid) state }
{
    match marked.get(&oid) {
        Some(states) => *states,
        None => States::none(),
    }
}

// Whether the origin is the last of the list.
fn is_last(origins: &[Origin], origin: Origin) -> bool
    ensures { IsTrue result ↔ IsLast origins.now origin }
{
    match origins {
        [.., last] => last.group == origin.group && last.label.0 == origin.label.0,
        [] => false,
    }
}

// Puts the origin behind the others, if it is not the last of them.
fn open(origins: &mut Vec<Origin>, origin: Origin) -> Result<(), NoMemory>
    ensures { OnOk result (Opens origin origins.old.items origins.new.items) }
{
    if is_last(origins.as_slice(), origin) {
        return Ok(());
    }
    origins.push(origin)?;
    Ok(())
}

// Where the places end that have the same group as this one, counted from the first of all places.
pub(crate) fn end_of(places: &[Place], first: usize) -> usize
    requires { first < length places.now }
    ensures after { first < result }
    ensures within { result ≤ length places.now }
    ensures same { (k : ℕ) (d : ThePlace) → first ≤ k → k < result
        → (slice_index_or places.now k d).group ≡ (slice_index_or places.now first d).group }
    ensures other { (d : ThePlace) → result < length places.now
        → (slice_index_or places.now result d).group ≢ (slice_index_or places.now first d).group }
{
    let group = places[first].group;
    'places: for end in first + 1..places.len() {
        if places[end].group != group {
            return end;
        }
    }
    places.len()
}

impl Groups {
    // The first group: the object under these states.
    pub(crate) fn new(alloc: Global, from: Oid, starts: States) -> Result<Groups, NoMemory>
        ensures places { IfOk result (λ groups. groups.places.items
            ≡ (record { oid = from; states = starts; group = 0 }) ∷ []) }
        ensures origins { IfOk result (λ groups. groups.origins.items ≡ []) }
        ensures marked { IfOk result (λ groups.
            AreMarked (get same_oid groups.marked) groups.places.items) }
    {
        let mut marked = IndexMap::new(alloc);
        marked.insert(from, starts)?;
        let mut places = Vec::new(alloc);
        places.push(Place {
            oid: from,
            states: starts,
            group: 0,
        })?;
        Ok(Groups {
            marked,
            places,
            origins: Vec::new(alloc),
        })
    }

    // Follows an arc that leads on from the group: where it has states that are new to its object,
    // it becomes a place of the group whose word ends with its label.
    fn follow(&mut self, group: usize, arc: Arc) -> Result<(), NoMemory>
        requires orderly { IsOrderly (found_of self.old.places.items self.old.origins.items) }
        requires back { AreBack self.old.origins.items }
        requires within { group ≤ length self.old.origins.items }
        requires marked { AreMarked (get same_oid self.old.marked) self.old.places.items }
        requires ahead { (word : List TheLabel)
            → slice_get (words_of self.old.origins.items) group ≡ Some word
            → IsAhead (words_of self.old.origins.items) word arc.label }
        ensures follows { OnOk result ((word : List TheLabel)
            → slice_get (words_of self.old.origins.items) group ≡ Some word
            → Follows word (arc ∷ []) (found_of self.old.places.items self.old.origins.items)
            (found_of self.new.places.items self.new.origins.items)) }
        ensures orderly { OnOk result
            (IsOrderly (found_of self.new.places.items self.new.origins.items)) }
        ensures back { OnOk result (AreBack self.new.origins.items) }
        ensures marked { OnOk result
            (AreMarked (get same_oid self.new.marked) self.new.places.items) }
    {
        let before = states_of(&self.marked, arc.oid);
        let fresh = arc.states.without(before);
        if fresh.is_empty() {
            return Ok(());
        }
        let origin = Origin {
            group,
            label: arc.label,
        };
        open(&mut self.origins, origin)?;
        self.marked.insert(arc.oid, before.join(fresh))?;
        self.places.push(Place {
            oid: arc.oid,
            states: fresh,
            group: self.origins.len(),
        })?;
        Ok(())
    }

    // Follows all arcs, which lead on from the group and ascend by label.
    pub(crate) fn follow_all(&mut self, group: usize, arcs: &[Arc]) -> Result<(), NoMemory>
        requires orderly { IsOrderly (found_of self.old.places.items self.old.origins.items) }
        requires back { AreBack self.old.origins.items }
        requires within { group ≤ length self.old.origins.items }
        requires marked { AreMarked (get same_oid self.old.marked) self.old.places.items }
        requires ascend { IsNonDecreasingBy (λ arc. arc.label.0) arcs.now }
        requires ahead { (word : List TheLabel)
            → slice_get (words_of self.old.origins.items) group ≡ Some word
            → (label : TheLabel) → IsAhead (words_of self.old.origins.items) word label }
        ensures follows { OnOk result ((word : List TheLabel)
            → slice_get (words_of self.old.origins.items) group ≡ Some word
            → Follows word arcs.now (found_of self.old.places.items self.old.origins.items)
            (found_of self.new.places.items self.new.origins.items)) }
        ensures orderly { OnOk result
            (IsOrderly (found_of self.new.places.items self.new.origins.items)) }
        ensures back { OnOk result (AreBack self.new.origins.items) }
        ensures marked { OnOk result
            (AreMarked (get same_oid self.new.marked) self.new.places.items) }
    {
        'arcs: for arc in arcs {
            self.follow(group, *arc)?;
        }
        Ok(())
    }
}
