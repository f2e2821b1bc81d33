ghost use Rattle.std.specs.Prelude.{◌≡◌, ◌≢◌, ◌↔◌, ℕ, ◌+◌, ◌-◌, ◌<◌, ◌≤◌, ◌^◌, List, [], length};
ghost use Rattle.std.specs.Prelude.{take, drop, All, AllPairs};
ghost use Rattle.std.specs.Prelude.{Contains, IfOk, IfSome, IfNone, OnOk};
ghost use Rattle.lore_base.specs.Deltas.{ListsOnlyIn};
ghost use Rattle.doem_history.specs.Histories.{facts_at, AreSame};
ghost use Rattle.doem_history.specs.Plans.{IsOpen, AreEnding, Ends, steps_in};
ghost use Rattle.doem_history.specs.inside.Kept.{Ascends, AreKept, AreFacts, begun, moved_on};
ghost use Rattle.doem_history.specs.inside.Marks.{runs_at, IsLeaving, IsComing};

use crate::plans::RunPlan;
use crate::run_chains::RunChains;
use doem_facts::{Fact, Run, held_facts, sort_facts, without};
use lore_base::{Listing, NoMemory, Oid};
use std::alloc::Global;
use std::marker::Model;

// How many runs began, and how many ended, up to a moment.
#[derive(Clone, Copy, Debug)]
pub(crate) struct Mark {
    pub(crate) begun: usize,
    pub(crate) ended: usize,
}

// The facts that stand at the one of two moments alone, and those that stand at the other.
#[derive(Drop)]
pub(crate) struct Differing<F> {
    pub(crate) gone: Listing<F>,
    pub(crate) come: Listing<F>,
}

// The runs of one kind of fact over successive moments from 0 on. Which of them began and ended
// between two moments is told by a mark for each moment and the places of ended runs. Contracts see
// the runs, the number of moments, and the room that is left.
#[derive(Drop)]
pub(crate) struct Timeline<F: Fact> {
    chains: RunChains<F>,
    over: Vec<u32>,
    marks: Vec<Mark>,
}

impl<F: Fact> Model for Timeline<F> {
    ghost use Rattle.std.specs.Prelude.{◌-◌, min, length, vec_len, vec_capacity};
    ghost use Rattle.doem_history.specs.Histories.{KeptRuns};
    ghost use Rattle.doem_history.specs.inside.Marks.{AreMarked};

    ghost Value = { KeptRuns F };

    ghost view = { λ t. record {
      runs = t.chains.runs;
      moments = length t.marks.items;
      room = min t.chains.room (min (vec_capacity t.over - vec_len t.over)
          (vec_capacity t.marks - vec_len t.marks));
    } };

    ghost invariant = { λ t. AreMarked t.chains.runs t.over.items t.marks.items };
}

impl<F: Fact + Drop> Timeline<F> {
    // The timeline of no moment. Takes no memory.
    fn new(alloc: Global) -> Timeline<F>
        ensures runs { result.runs ≡ [] }
        ensures moments { result.moments ≡ 0 }
    {
        Timeline {
            chains: RunChains::new(alloc),
            over: Vec::new(alloc),
            marks: Vec::new(alloc),
        }
    }

    // The timeline of one moment, at which these facts stand.
    pub(crate) fn first(alloc: Global, facts: Vec<F>) -> Result<Timeline<F>, NoMemory>
        requires { length facts.items < 2 ^ 31 }
        ensures runs { IfOk result (λ timeline. timeline.runs ≡ begun 0 facts.items) }
        ensures moments { IfOk result (λ timeline. timeline.moments ≡ 1) }
    {
        let plan = RunPlan {
            places: Vec::new(alloc),
            come: facts,
        };
        let mut timeline = Timeline::new(alloc);
        timeline.reserve(&plan)?;
        timeline.append(plan);
        Ok(timeline)
    }

    // What comes of the runs where these facts go, whose runs all go on, and those come.
    pub(crate) fn plan(&self, gone: &[F], come: Vec<F>) -> Result<RunPlan<F>, NoMemory>
        requires apart { AllPairs (λ a b. a ≢ b) gone.now }
        requires going { All (λ fact. (place : ℕ) × IsOpen self.now.runs place fact) gone.now }
        ensures { IfOk result (λ plan. Ends self.now.runs gone.now come.items plan) }
    {
        let places = self.chains.ending(gone)?;
        Ok(RunPlan { places, come })
    }

    // Makes room for what the plan begins and ends, and for one moment more.
    pub(crate) fn reserve(&mut self, plan: &RunPlan<F>) -> Result<(), NoMemory>
        ensures same { AreSame self.old self.new }
        ensures room { OnOk result (steps_in plan.now ≤ self.new.room) }
    {
        let more = plan.steps();
        self.chains.reserve(more)?;
        self.over.reserve(more)?;
        self.marks.reserve(more)?;
        Ok(())
    }

    // Appends a moment: ends runs and begins others. Takes no memory.
    pub(crate) fn append(&mut self, plan: RunPlan<F>)
        requires kept { AreKept self.old.moments self.old.runs }
        requires ending { (gone : List F) × AreEnding self.old.runs gone plan.places }
        requires room { steps_in plan ≤ self.old.room }
        requires few { length self.old.runs + length plan.come < 2 ^ 31 }
        ensures runs { self.new.runs
            ≡ moved_on self.old.moments plan.places plan.come self.old.runs }
        ensures moments { self.new.moments ≡ self.old.moments + 1 }
    {
        let RunPlan { places, come } = plan;
        let moment = self.marks.len() as u32;
        self.chains.move_on(moment, places.as_slice(), come);
        let Ok(()) = self.over.extend_from_slice(places.as_slice()) else {
            unreachable!();
        };
        self.marks.push_reserved(Mark {
            begun: self.chains.runs().len(),
            ended: self.over.len(),
        });
    }

    // The facts that stand at the moment, in no order.
    pub(crate) fn all_at(&self, moment: u32) -> Result<Vec<F>, NoMemory>
        ensures { IfOk result (λ facts. facts.items ≡ facts_at moment self.now.runs) }
    {
        held_facts(self.chains.allocator(), self.chains.runs(), moment)
    }

    // The facts that stand at `before` and whose runs end up to `after`, in order.
    fn leaving(&self, before: u32, after: u32) -> Result<Vec<F>, NoMemory>
        requires order { before ≤ after }
        requires within { after < self.now.moments }
        requires facts { AreFacts F.order self.now.moments self.now.runs }
        ensures exact { IfOk result (λ facts. (fact : F) → Contains facts.items fact
            ↔ IsLeaving self.now.runs before after fact) }
        ensures ascend { IfOk result (λ facts. Ascends F.order facts.items) }
    {
        let first = self.marks[before as usize];
        let last = self.marks[after as usize];
        let places = stretch(self.over.as_slice(), first.ended, last.ended);
        let runs = self.chains.runs();
        let mut facts = held_at_places(self.chains.allocator(), runs, places, before)?;
        sort_facts(&mut facts);
        Ok(facts)
    }

    // The facts that stand at `after` and whose runs begin behind `before`, in order.
    fn coming(&self, before: u32, after: u32) -> Result<Vec<F>, NoMemory>
        requires order { before ≤ after }
        requires within { after < self.now.moments }
        requires facts { AreFacts F.order self.now.moments self.now.runs }
        ensures exact { IfOk result (λ facts. (fact : F) → Contains facts.items fact
            ↔ IsComing self.now.runs before after fact) }
        ensures ascend { IfOk result (λ facts. Ascends F.order facts.items) }
    {
        let first = self.marks[before as usize];
        let last = self.marks[after as usize];
        let runs = stretch(self.chains.runs(), first.begun, last.begun);
        let mut facts = held_facts(self.chains.allocator(), runs, after)?;
        sort_facts(&mut facts);
        Ok(facts)
    }

    // The facts that stand at `before` and not at `after`, and those that stand at `after` and not
    // at `before`, in order. Only the runs that begin or end between the two are looked at.
    pub(crate) fn differing(&self, before: u32, after: u32) -> Result<Differing<F>, NoMemory>
        requires order { before ≤ after }
        requires within { after < self.now.moments }
        requires facts { AreFacts F.order self.now.moments self.now.runs }
        ensures gone { IfOk result (λ both. ListsOnlyIn both.gone
            (facts_at before self.now.runs) (facts_at after self.now.runs)) }
        ensures come { IfOk result (λ both. ListsOnlyIn both.come
            (facts_at after self.now.runs) (facts_at before self.now.runs)) }
        ensures ascend { IfOk result
            (λ both. Ascends F.order both.gone × Ascends F.order both.come) }
    {
        let alloc = self.chains.allocator();
        let leaving = self.leaving(before, after)?;
        let coming = self.coming(before, after)?;
        let gone = without(alloc, leaving.as_slice(), coming.as_slice())?;
        let come = without(alloc, coming.as_slice(), leaving.as_slice())?;
        Ok(Differing { gone, come })
    }
}

impl<F: Fact> Timeline<F> {
    // The allocator that the timeline takes its memory from.
    pub(crate) fn allocator(&self) -> Global {
        self.chains.allocator()
    }

    // The number of runs.
    pub(crate) fn count(&self) -> usize
        ensures { result ≡ length self.now.runs }
    {
        self.chains.runs().len()
    }

    // A fact of the object that stands at the moment; None exactly where there is none. Takes no
    // memory.
    pub(crate) fn held_at(&self, owner: Oid, moment: u32) -> Option<&F>
        ensures some { IfSome result (λ fact. Contains (facts_at moment self.now.runs) fact.now
            × (F.owner_of fact.now ≡ owner)) }
        ensures none { IfNone result ((fact : F) → Contains (facts_at moment self.now.runs) fact
            → ¬ (F.owner_of fact ≡ owner)) }
    {
        self.chains.held_at(owner, moment)
    }
}

impl<F: Fact + Copy + Drop> Timeline<F> {
    // The facts of the object that stand at the moment, in no order.
    pub(crate) fn all_held(&self, owner: Oid, moment: u32) -> Result<Listing<F>, NoMemory>
        ensures { IfOk result (λ held. (fact : F) → Contains held fact
            ↔ (Contains (facts_at moment self.now.runs) fact × (F.owner_of fact ≡ owner))) }
    {
        self.chains.all_held(owner, moment)
    }
}

// The items from the one place on up to the other.
fn stretch<T>(items: &[T], from: usize, to: usize) -> &[T]
    requires order { from ≤ to }
    requires within { to ≤ length items.now }
    ensures { result.now ≡ take (to - from) (drop from items.now) }
{
    &items[from..to]
}

// The facts of those runs at the places that hold the moment, in the order of the places.
fn held_at_places<F: Fact + Drop>(
    alloc: Global,
    runs: &[Run<F>],
    places: &[u32],
    moment: u32,
) -> Result<Vec<F>, NoMemory>
    requires { All (λ place. place < length runs.now) places.now }
    ensures { IfOk result (λ facts. facts.items ≡ facts_at moment (runs_at runs.now places.now)) }
{
    let mut facts = Vec::new(alloc);
    'places: for place in places {
        let at = *place as usize;
        let run = &runs[at];
        if run.holds(moment) {
            facts.push(run.fact.copied(alloc)?)?;
        }
    }
    Ok(facts)
}
