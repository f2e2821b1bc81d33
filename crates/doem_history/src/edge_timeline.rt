ghost use Rattle.std.specs.Prelude.{◌≡◌, ◌≢◌, ◌↔◌, ℕ, ◌+◌, ◌<◌, ◌≤◌, ◌^◌, List, ◌++◌, length};
ghost use Rattle.std.specs.Prelude.{All, AllPairs, Contains, IfOk, OnOk};
ghost use Rattle.indexmap.specs.IndexMap.{get, spare};
ghost use Rattle.lore_base.specs.Walks.{edge_cmp};
ghost use Rattle.lore_base.specs.Deltas.{ListsOnlyIn};
ghost use Rattle.doem_history.specs.Types.{Edge as TheEdge};
ghost use Rattle.doem_history.specs.Histories.{facts_at, AreSame};
ghost use Rattle.doem_history.specs.Plans.{IsOpen, AreEnding, Ends, steps_in};
ghost use Rattle.doem_history.specs.inside.Kept.{Ascends, AreKept, AreFacts, begun, moved_on};
ghost use Rattle.doem_history.specs.inside.Chains.{edge_eq, AreNewest};

use crate::links::{link_of, put_link};
use crate::plans::RunPlan;
use crate::timeline::{Differing, Timeline};
use indexmap::IndexMap;
use lore_base::{Edge, Listing, NoMemory, Oid};
use std::alloc::Global;
use std::marker::Model;

// The timeline of edges. An object may have many, so a link leads from each edge to its newest run:
// one that ends is found by it, and not by a walk along the runs of its parent.
#[derive(Drop)]
pub(crate) struct EdgeTimeline {
    timeline: Timeline<Edge>,
    newest: IndexMap<Edge, u32>,
}

impl Model for EdgeTimeline {
    ghost use Rattle.std.specs.Prelude.{min};
    ghost use Rattle.indexmap.specs.IndexMap.{get, spare};
    ghost use Rattle.doem_history.specs.Types.{Edge as TheEdge};
    ghost use Rattle.doem_history.specs.Histories.{KeptRuns};
    ghost use Rattle.doem_history.specs.inside.Chains.{edge_eq, AreNewest, all_facts};

    ghost Value = { KeptRuns TheEdge };

    ghost view = { λ t. record {
      runs = t.timeline.runs;
      moments = t.timeline.moments;
      room = min t.timeline.room (spare t.newest);
    } };

    ghost invariant = { λ t. AreNewest (all_facts t.timeline.runs) (get edge_eq t.newest) };
}

impl EdgeTimeline {
    // The timeline of one moment, at which these edges stand.
    pub(crate) fn first(alloc: Global, edges: Vec<Edge>) -> Result<EdgeTimeline, NoMemory>
        requires { length edges.items < 2 ^ 31 }
        ensures runs { IfOk result (λ timeline. timeline.runs ≡ begun 0 edges.items) }
        ensures moments { IfOk result (λ timeline. timeline.moments ≡ 1) }
    {
        let mut newest = IndexMap::new(alloc);
        newest.reserve(edges.len())?;
        put_newest(&mut newest, edges.as_slice(), 0);
        let timeline = Timeline::first(alloc, edges)?;
        Ok(EdgeTimeline { timeline, newest })
    }

    // The place of the edge's run that goes on, which is its newest.
    fn open_place(&self, edge: Edge) -> u32
        requires going { (place : ℕ) × IsOpen self.now.runs place edge }
        requires kept { AreKept self.now.moments self.now.runs }
        ensures { IsOpen self.now.runs result edge }
    {
        link_of(&self.newest, edge) - 1
    }

    // What comes of the runs where these edges go, whose runs all go on, and those come.
    pub(crate) fn plan(&self, gone: &[Edge], come: Vec<Edge>) -> Result<RunPlan<Edge>, NoMemory>
        requires apart { AllPairs (λ a b. a ≢ b) gone.now }
        requires going { All (λ edge. (place : ℕ) × IsOpen self.now.runs place edge) gone.now }
        requires kept { AreKept self.now.moments self.now.runs }
        ensures { IfOk result (λ plan. Ends self.now.runs gone.now come.items plan) }
    {
        let mut places = Vec::with_capacity(self.timeline.allocator(), gone.len())?;
        'gone: for edge in gone {
            let place = self.open_place(*edge);
            places.push(place)?;
        }
        Ok(RunPlan { places, come })
    }

    // Makes room for what the plan begins and ends, and for one moment more.
    pub(crate) fn reserve(&mut self, plan: &RunPlan<Edge>) -> Result<(), NoMemory>
        ensures same { AreSame self.old self.new }
        ensures room { OnOk result (steps_in plan.now ≤ self.new.room) }
    {
        self.timeline.reserve(plan)?;
        self.newest.reserve(plan.steps())?;
        Ok(())
    }

    // Appends a moment: ends runs and begins others. Takes no memory.
    pub(crate) fn append(&mut self, plan: RunPlan<Edge>)
        requires kept { AreKept self.old.moments self.old.runs }
        requires ending { (gone : List TheEdge) × AreEnding self.old.runs gone plan.places }
        requires room { steps_in plan ≤ self.old.room }
        requires few { length self.old.runs + length plan.come < 2 ^ 31 }
        ensures runs { self.new.runs
            ≡ moved_on self.old.moments plan.places plan.come self.old.runs }
        ensures moments { self.new.moments ≡ self.old.moments + 1 }
    {
        let count = self.timeline.count();
        put_newest(&mut self.newest, plan.come.as_slice(), count);
        self.timeline.append(plan);
    }

    // The edges that leave the object at the moment, in no order.
    pub(crate) fn all_held(&self, owner: Oid, moment: u32) -> Result<Listing<Edge>, NoMemory>
        ensures { IfOk result (λ held. (edge : TheEdge) → Contains held edge
            ↔ (Contains (facts_at moment self.now.runs) edge × (edge.parent ≡ owner))) }
    {
        self.timeline.all_held(owner, moment)
    }

    // The edges that stand at `before` and not at `after`, and those that stand at `after` and not
    // at `before`, in order. Only the runs that begin or end between the two are looked at.
    pub(crate) fn differing(&self, before: u32, after: u32) -> Result<Differing<Edge>, NoMemory>
        requires order { before ≤ after }
        requires within { after < self.now.moments }
        requires facts { AreFacts edge_cmp self.now.moments self.now.runs }
        ensures gone { IfOk result (λ both. ListsOnlyIn both.gone
            (facts_at before self.now.runs) (facts_at after self.now.runs)) }
        ensures come { IfOk result (λ both. ListsOnlyIn both.come
            (facts_at after self.now.runs) (facts_at before self.now.runs)) }
        ensures ascend { IfOk result
            (λ both. Ascends edge_cmp both.gone × Ascends edge_cmp both.come) }
    {
        self.timeline.differing(before, after)
    }
}

// Notes that the newest runs of these edges stand in turn behind so many others. Takes no memory.
fn put_newest(newest: &mut IndexMap<Edge, u32>, edges: &[Edge], count: usize)
    requires room { length edges.now ≤ spare newest.old }
    requires few { count + length edges.now < 2 ^ 31 }
    ensures room { spare newest.old ≤ spare newest.new + length edges.now }
    ensures newest { (before : List TheEdge) → length before ≡ count
        → AreNewest before (get edge_eq newest.old)
        → AreNewest (before ++ edges.now) (get edge_eq newest.new) }
{
    let mut link = count as u32;
    'edges: for edge in edges {
        link += 1;
        put_link(newest, *edge, link);
    }
}
