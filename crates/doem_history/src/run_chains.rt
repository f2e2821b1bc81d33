ghost use Rattle.std.specs.Prelude.{◌≡◌, ◌≢◌, ◌↔◌, ℕ, ◌+◌, ◌<◌, ◌≤◌, ◌^◌, [], ◌∷◌, ◌++◌, length};
ghost use Rattle.std.specs.Prelude.{All, AllPairs, Contains, IsTrue};
ghost use Rattle.std.specs.Prelude.{IfSome, IfNone, IfOk, OnOk};
ghost use Rattle.doem_history.specs.Types.{STANDING as THE_STANDING};
ghost use Rattle.doem_history.specs.Histories.{facts_at};
ghost use Rattle.doem_history.specs.Plans.{IsOpen, AreEnding};
ghost use Rattle.doem_history.specs.inside.Kept.{end_at, ended, begun, moved_on};

use crate::links::{link_of, put_link};
use doem_facts::{Fact, Run, STANDING};
use indexmap::IndexMap;
use lore_base::{Listing, NoMemory, Oid};
use std::alloc::Global;
use std::marker::Model;

// The runs of one kind of fact in the order of their beginnings, chained by the objects to which
// the facts belong. A link is one past a place, so that 0 leads nowhere. Contracts see the runs,
// and for how many more there is room.
#[derive(Drop)]
pub(crate) struct RunChains<F: Fact> {
    runs: Vec<Run<F>>,
    newest: IndexMap<Oid, u32>,
    older: Vec<u32>,
}

impl<F: Fact> Model for RunChains<F> {
    ghost use Rattle.std.specs.Prelude.{◌-◌, min, vec_len, vec_capacity};
    ghost use Rattle.indexmap.specs.IndexMap.{get, spare};
    ghost use Rattle.doem_history.specs.inside.Chains.{LinkedRuns, same_oid, AreLinked};

    ghost Value = { LinkedRuns F };

    ghost view = { λ t. record {
      runs = t.runs.items;
      room = min (vec_capacity t.runs - vec_len t.runs)
          (min (vec_capacity t.older - vec_len t.older) (spare t.newest));
    } };

    ghost invariant = { λ t.
        AreLinked F.owner_of t.runs.items (get same_oid t.newest) t.older.items };
}

impl<F: Fact> RunChains<F> {
    // No run. Takes no memory.
    pub(crate) fn new(alloc: Global) -> RunChains<F>
        ensures { result.runs ≡ [] }
    {
        RunChains {
            runs: Vec::new(alloc),
            newest: IndexMap::new(alloc),
            older: Vec::new(alloc),
        }
    }

    // The allocator that the chains take their memory from.
    pub(crate) fn allocator(&self) -> Global {
        *self.runs.allocator()
    }

    // The runs, in the order of their beginnings.
    pub(crate) fn runs(&self) -> &[Run<F>]
        ensures { result.now ≡ self.now.runs }
    {
        self.runs.as_slice()
    }

    // Makes room for this many more runs. The runs stay, whatever the answer.
    pub(crate) fn reserve(&mut self, more: usize) -> Result<(), NoMemory>
        ensures runs { self.new.runs ≡ self.old.runs }
        ensures room { OnOk result (more ≤ self.new.room) }
    {
        self.runs.reserve(more)?;
        self.older.reserve(more)?;
        self.newest.reserve(more)?;
        Ok(())
    }
}

impl<F: Fact + Drop> RunChains<F> {
    // Ends the run at this place.
    fn end(&mut self, moment: u32, place: u32)
        requires { place < length self.old.runs }
        ensures runs { self.new.runs ≡ end_at moment place self.old.runs }
        ensures room { self.new.room ≡ self.old.room }
    {
        self.runs[place as usize].end = moment;
    }

    // Begins a run of the fact.
    fn begin(&mut self, moment: u32, fact: F)
        requires room { 1 ≤ self.old.room }
        requires few { length self.old.runs + 1 < 2 ^ 31 }
        ensures runs { self.new.runs ≡ self.old.runs
            ++ (record { fact = fact; begin = moment; end = THE_STANDING }) ∷ [] }
        ensures room { self.old.room ≤ self.new.room + 1 }
    {
        let owner = fact.owner();
        let older = link_of(&self.newest, owner);
        self.older.push_reserved(older);
        let link = self.runs.len() as u32 + 1;
        put_link(&mut self.newest, owner, link);
        self.runs.push_reserved(Run {
            fact,
            begin: moment,
            end: STANDING,
        });
    }

    // Ends the runs at these places.
    fn end_all(&mut self, moment: u32, places: &[u32])
        requires { All (λ place. place < length self.old.runs) places.now }
        ensures runs { self.new.runs ≡ ended moment places.now self.old.runs }
        ensures room { self.new.room ≡ self.old.room }
    {
        'places: for place in places {
            self.end(moment, *place);
        }
    }

    // Begins a run of each of these facts.
    fn begin_all(&mut self, moment: u32, come: Vec<F>)
        requires room { length come.items ≤ self.old.room }
        requires few { length self.old.runs + length come.items < 2 ^ 31 }
        ensures runs { self.new.runs ≡ self.old.runs ++ begun moment come.items }
        ensures room { self.old.room ≤ self.new.room + length come.items }
    {
        'come: for fact in come {
            self.begin(moment, fact);
        }
    }

    // Ends the runs at these places, and begins one of each of these facts. Takes no memory.
    pub(crate) fn move_on(&mut self, moment: u32, places: &[u32], come: Vec<F>)
        requires places { All (λ place. place < length self.old.runs) places.now }
        requires room { length come.items ≤ self.old.room }
        requires few { length self.old.runs + length come.items < 2 ^ 31 }
        ensures { self.new.runs ≡ moved_on moment places.now come.items self.old.runs }
    {
        self.end_all(moment, places);
        self.begin_all(moment, come);
    }
}

impl<F: Fact> RunChains<F> {
    // The place of the fact's run that goes on; None exactly where there is none. An object's is its
    // newest run.
    fn open_place(&self, fact: &F) -> Option<u32>
        ensures some { IfSome result (λ place. IsOpen self.now.runs place fact.now) }
        ensures none { IfNone result ((place : ℕ) → ¬ IsOpen self.now.runs place fact.now) }
    {
        let mut link = link_of(&self.newest, fact.owner());
        'back: while link > 0 {
            let place = link - 1;
            let run = &self.runs[place as usize];
            if is_open(run, fact) {
                return Some(place);
            }
            link = self.older[place as usize];
        }
        None
    }

    // The places of the runs of these facts, which are distinct and all go on.
    pub(crate) fn ending(&self, gone: &[F]) -> Result<Vec<u32>, NoMemory>
        requires apart { AllPairs (λ a b. a ≢ b) gone.now }
        requires going { All (λ fact. (place : ℕ) × IsOpen self.now.runs place fact) gone.now }
        ensures { IfOk result (λ places. AreEnding self.now.runs gone.now places.items) }
    {
        let mut places = Vec::with_capacity(self.allocator(), gone.len())?;
        'gone: for fact in gone {
            let Some(place) = self.open_place(fact) else {
                unreachable!();
            };
            places.push(place)?;
        }
        Ok(places)
    }

    // A fact of the object that stands at the moment; None exactly where there is none. Takes no
    // memory.
    pub(crate) fn held_at(&self, owner: Oid, moment: u32) -> Option<&F>
        ensures some { IfSome result (λ fact. Contains (facts_at moment self.now.runs) fact.now
            × (F.owner_of fact.now ≡ owner)) }
        ensures none { IfNone result ((fact : F) → Contains (facts_at moment self.now.runs) fact
            → ¬ (F.owner_of fact ≡ owner)) }
    {
        let mut link = link_of(&self.newest, owner);
        'back: while link > 0 {
            let place = link - 1;
            let run = &self.runs[place as usize];
            if run.holds(moment) {
                return Some(&run.fact);
            }
            link = self.older[place as usize];
        }
        None
    }
}

impl<F: Fact + Copy + Drop> RunChains<F> {
    // The facts of the object that stand at the moment, in no order.
    pub(crate) fn all_held(&self, owner: Oid, moment: u32) -> Result<Listing<F>, NoMemory>
        ensures { IfOk result (λ held. (fact : F) → Contains held fact
            ↔ (Contains (facts_at moment self.now.runs) fact × (F.owner_of fact ≡ owner))) }
    {
        let mut held = Listing::new(self.allocator());
        let mut link = link_of(&self.newest, owner);
        'back: while link > 0 {
            let place = link - 1;
            let run = &self.runs[place as usize];
            if run.holds(moment) {
                held.push(run.fact)?;
            }
            link = self.older[place as usize];
        }
        Ok(held)
    }
}

// Whether the run is one of the fact, and goes on.
fn is_open<F: Fact>(run: &Run<F>, fact: &F) -> bool
    ensures { IsTrue result ↔ ((run.now.end ≡ THE_STANDING) × (run.now.fact ≡ fact.now)) }
{
    run.end == STANDING && run.fact.is(fact)
}
