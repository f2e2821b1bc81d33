ghost use Rattle.std.specs.Prelude.{◌≡◌, ◌+◌, ◌<◌, ◌≤◌, [], ◌∷◌, ◌++◌, length, Some, Contains};
ghost use Rattle.std.specs.Prelude.{IsTrue, IfOk, IfErr, IfSome, IfNone, OnOk, ◌↔◌, slice_get};
ghost use Rattle.std.specs.Option.{option_copied};
ghost use Rattle.lore_base.specs.Walks.{out_of};
ghost use Rattle.lore_base.specs.Databases.{IsLive, AreAscendingObjects, AreAscendingEdges};
ghost use Rattle.lore_base.specs.Deltas.{IsDelta};
ghost use Rattle.doem_history.specs.Types.{Value as TheValue, HISTORY_WEIGHT as THE_WEIGHT};
ghost use Rattle.doem_history.specs.Types.{MOMENTS as THE_MOMENTS};
ghost use Rattle.doem_history.specs.Moments.{Moment, moment_of, graph_of, IsInOrder, LeadsTo};
ghost use Rattle.doem_history.specs.Moments.{IsHistoryWeight, IsFull};
ghost use Rattle.doem_history.specs.Histories.{moment_at, last_moment, moments_of, IsSame};
ghost use Rattle.doem_history.specs.Laws.{AreMoments};
ghost use Rattle.doem_history.specs.Plans.{weight_of, weight_of_come, CarriesOut, Appends, HasRoom};
ghost use Rattle.doem_history.specs.declared.faults.HistoryFault.TheVariants as fault;

use crate::edge_timeline::EdgeTimeline;
use crate::faults::HistoryFault;
use crate::name_facts::{name_facts, name_table};
use crate::plans::HistoryPlan;
use crate::timeline::Timeline;
use crate::view::HistoryView;
use doem_facts::{NameFact, ObjectFact, copied_facts, sort_facts, weigh};
use lore_base::limits::MOMENTS;
use lore_base::{Delta, Edge, EdgeBuf, Names, NoMemory, ObjectList, Oid, Value};
use std::alloc::Global;
use std::marker::Model;

/// The names, objects and edges of a database at successive moments, each fact with the moments at
/// which it began and ended (after DOEM, Chawathe, Abiteboul and Widom 1998). Contracts see the
/// runs of each kind of fact, and through `moments_of` the list of moments.
#[derive(Drop)]
pub struct History {
    names: Timeline<NameFact>,
    objects: Timeline<ObjectFact>,
    edges: EdgeTimeline,
    last: u32,
    weight: u64,
}

impl Model for History {
    ghost use Rattle.doem_history.specs.Histories.{KeptHistory};
    ghost use Rattle.doem_history.specs.inside.Kept.{IsHistory};

    ghost Value = { KeptHistory };

    ghost view = { λ h. record {
      names = h.names;
      objects = h.objects;
      edges = h.edges;
      last = h.last;
      weight = h.weight;
    } };

    ghost invariant = { λ h. IsHistory (record {
      names = h.names;
      objects = h.objects;
      edges = h.edges;
      last = h.last;
      weight = h.weight;
    }) };
}

impl History {
    /// The history of this one moment. `Full` exactly where it weighs more than a history may.
    pub fn start(
        alloc: Global,
        names: &Names,
        objects: &ObjectList,
        edges: &EdgeBuf,
    ) -> Result<History, HistoryFault>
        requires objects { AreAscendingObjects objects.now }
        requires edges { AreAscendingEdges edges.now }
        ensures moments { IfOk result (λ history.
            moments_of history ≡ moment_of names.now objects.now edges.now ∷ []) }
        ensures ok { OnOk result (¬ IsFull (moment_of names.now objects.now edges.now ∷ [])) }
        ensures full { IfErr result (λ cause. cause ≡ fault.Full
            → IsFull (moment_of names.now objects.now edges.now ∷ [])) }
    {
        let Ok(named) = name_facts(alloc, names) else {
            return Err(HistoryFault::NoMemory);
        };
        let (objects, edges) = (objects.as_slice(), edges.as_slice());
        let Some(weight) = weigh_all(named.as_slice(), objects, edges, 0) else {
            return Err(HistoryFault::Full);
        };
        match first(alloc, named, objects, edges, weight) {
            Ok(history) => Ok(history),
            Err(_error) => Err(HistoryFault::NoMemory),
        }
    }

    /// The number of the last moment. Takes no memory.
    pub fn last(&self) -> u32
        ensures last { result ≡ self.now.last }
        ensures moments { length (moments_of self.now) ≡ result + 1 }
        ensures limit { result ≤ THE_MOMENTS }
        ensures weight { IsHistoryWeight (moments_of self.now) self.now.weight }
        ensures light { self.now.weight ≤ THE_WEIGHT }
        ensures ordered { AreMoments (moments_of self.now) }
    {
        self.last
    }

    /// Works out what comes of the history where the delta leads on from its last moment. `Full`
    /// exactly where it would then weigh more than a history may, or its last moment have a number
    /// above the greatest. Takes time by the delta, however many runs there are, and for a name
    /// that goes by the newer runs of its object's names.
    pub fn prepare(&self, delta: &Delta) -> Result<HistoryPlan, HistoryFault>
        requires { (after : Moment) × LeadsTo (last_moment self.now) after delta.now }
        ensures appends { IfOk result (λ plan. (after : Moment)
            → LeadsTo (last_moment self.now) after delta.now → Appends self.now plan after) }
        ensures ok { OnOk result ((after : Moment)
            → LeadsTo (last_moment self.now) after delta.now
            → ¬ IsFull (moments_of self.now ++ after ∷ [])) }
        ensures full { IfErr result (λ cause. cause ≡ fault.Full → (after : Moment)
            → LeadsTo (last_moment self.now) after delta.now
            → IsFull (moments_of self.now ++ after ∷ [])) }
    {
        if self.is_at_end() {
            return Err(HistoryFault::Full);
        }
        let Ok(named) = name_facts(self.names.allocator(), &delta.names_come) else {
            return Err(HistoryFault::NoMemory);
        };
        let (objects, edges) = (delta.objects_come.as_slice(), delta.edges_come.as_slice());
        let Some(weight) = weigh_all(named.as_slice(), objects, edges, self.weight) else {
            return Err(HistoryFault::Full);
        };
        match self.plan(delta, named, weight) {
            Ok(plan) => Ok(plan),
            Err(_error) => Err(HistoryFault::NoMemory),
        }
    }

    /// Takes the memory that `commit` needs for this plan. The history tells the same, whatever the
    /// answer.
    pub fn reserve(&mut self, plan: &HistoryPlan) -> Result<(), NoMemory>
        ensures room { OnOk result (HasRoom self.new plan.now) }
        ensures same { IsSame self.old self.new }
        ensures moments { moments_of self.new ≡ moments_of self.old }
        ensures appends { (after : Moment)
            → Appends self.old plan.now after → Appends self.new plan.now after }
    {
        self.make_room(plan)
    }

    /// Appends the moment. Takes no memory, and time by the plan.
    pub fn commit(&mut self, plan: HistoryPlan)
        requires appends { (after : Moment) × Appends self.old plan after }
        requires room { HasRoom self.old plan }
        ensures { (after : Moment) → Appends self.old plan after
            → moments_of self.new ≡ moments_of self.old ++ after ∷ [] }
    {
        let HistoryPlan {
            names,
            objects,
            edges,
            weight,
        } = plan;
        self.names.append(names);
        self.objects.append(objects);
        self.edges.append(edges);
        self.last += 1;
        self.weight = weight;
    }

    /// The moment, for readers. Takes no memory. How long reading it takes, `HistoryView` says.
    pub fn view<'a>(&'a self, moment: u32) -> HistoryView<'a>
        requires { moment ≤ self.now.last }
        ensures moment { result ≡ moment_at self.now moment }
        ensures ordered { IsInOrder result }
        ensures among { slice_get (moments_of self.now) moment ≡ Some result }
    {
        HistoryView::new(self, moment)
    }

    /// The object's value at the moment; None exactly where the object isn't live at it. Takes no
    /// memory, and time by the runs that the object had, from the newest back.
    pub fn value_at(&self, moment: u32, oid: Oid) -> Option<&Value>
        requires { moment ≤ self.now.last }
        ensures found { IfSome result (λ value.
            Contains (moment_at self.now moment).objects (oid, value.now)) }
        ensures none { IfNone result (¬ IsLive (moment_at self.now moment).objects oid) }
        ensures only { (value : TheValue)
            → Contains (moment_at self.now moment).objects (oid, value)
            → option_copied result ≡ Some value }
    {
        match self.objects.held_at(oid, moment) {
            Some(object) => Some(&object.1),
            None => None,
        }
    }

    /// The names of the moment. Takes time by all runs of names.
    pub fn names_at(&self, moment: u32) -> Result<Names, NoMemory>
        requires { moment ≤ self.now.last }
        ensures { IfOk result (λ names. names ≡ (moment_at self.now moment).names) }
    {
        let mut facts = self.names.all_at(moment)?;
        sort_facts(&mut facts);
        name_table(self.names.allocator(), facts.as_slice())
    }

    /// What leads from the one moment to the other. Only facts that begin or end between the two
    /// are looked at.
    pub fn between(&self, i: u32, j: u32) -> Result<Delta, NoMemory>
        requires order { i ≤ j }
        requires last { j ≤ self.now.last }
        ensures { IfOk result (λ delta.
            IsDelta (graph_of (moment_at self.now i)) (graph_of (moment_at self.now j)) delta) }
    {
        let alloc = self.names.allocator();
        let names = self.names.differing(i, j)?;
        let objects = self.objects.differing(i, j)?;
        let edges = self.edges.differing(i, j)?;
        let names_gone = name_table(alloc, names.gone.as_slice())?;
        let names_come = name_table(alloc, names.come.as_slice())?;
        Ok(Delta {
            names_gone,
            names_come,
            objects_gone: objects.gone,
            objects_come: objects.come,
            edges_gone: edges.gone,
            edges_come: edges.come,
        })
    }

    // Takes the memory that the plan needs.
    fn make_room(&mut self, plan: &HistoryPlan) -> Result<(), NoMemory>
        ensures room { OnOk result (HasRoom self.new plan.now) }
        ensures same { IsSame self.old self.new }
    {
        self.names.reserve(&plan.names)?;
        self.objects.reserve(&plan.objects)?;
        self.edges.reserve(&plan.edges)?;
        Ok(())
    }

    // The edges that leave the object at the moment, in ascending order.
    pub(crate) fn edges_at(&self, moment: u32, oid: Oid) -> Result<EdgeBuf, NoMemory>
        requires { moment ≤ self.now.last }
        ensures edges { IfOk result
            (λ edges. edges ≡ out_of oid (moment_at self.now moment).edges) }
        ensures ascend { AreAscendingEdges (out_of oid (moment_at self.now moment).edges) }
    {
        let mut edges = self.edges.all_held(oid, moment)?;
        edges.sort_set();
        Ok(edges)
    }

    // Whether the last moment has the greatest number.
    fn is_at_end(&self) -> bool
        ensures { IsTrue result ↔ (THE_MOMENTS ≤ self.now.last) }
    {
        self.last >= MOMENTS
    }

    // The plan by which the delta is carried out, where these are the names that come with it and
    // the history weighs so much then.
    fn plan(
        &self,
        delta: &Delta,
        named: Vec<NameFact>,
        weight: u64,
    ) -> Result<HistoryPlan, NoMemory>
        requires leads { (after : Moment) × LeadsTo (last_moment self.now) after delta.now }
        requires named { named.items ≡ delta.now.names_come }
        requires weight { weight ≡ self.now.weight + weight_of_come delta.now }
        requires light { weight ≤ THE_WEIGHT }
        requires early { self.now.last < THE_MOMENTS }
        ensures { IfOk result (λ plan. CarriesOut self.now delta.now plan) }
    {
        let alloc = self.names.allocator();
        let gone = name_facts(alloc, &delta.names_gone)?;
        let names = self.names.plan(gone.as_slice(), named)?;
        let come = copied_facts(alloc, delta.objects_come.as_slice())?;
        let objects = self.objects.plan(delta.objects_gone.as_slice(), come)?;
        let come = copied_facts(alloc, delta.edges_come.as_slice())?;
        let edges = self.edges.plan(delta.edges_gone.as_slice(), come)?;
        Ok(HistoryPlan {
            names,
            objects,
            edges,
            weight,
        })
    }
}

// The history of the moment of these facts, which weigh so much.
fn first(
    alloc: Global,
    names: Vec<NameFact>,
    objects: &[ObjectFact],
    edges: &[Edge],
    weight: u64,
) -> Result<History, NoMemory>
    requires ordered { IsInOrder (moment_of names.items objects.now edges.now) }
    requires weight { weight ≡ weight_of names.items objects.now edges.now }
    requires light { weight ≤ THE_WEIGHT }
    ensures { IfOk result (λ history.
        moments_of history ≡ moment_of names.items objects.now edges.now ∷ []) }
{
    let names = Timeline::first(alloc, names)?;
    let come = copied_facts(alloc, objects)?;
    let objects = Timeline::first(alloc, come)?;
    let come = copied_facts(alloc, edges)?;
    let edges = EdgeTimeline::first(alloc, come)?;
    Ok(History {
        names,
        objects,
        edges,
        last: 0,
        weight,
    })
}

// The weight with that of names, objects and edges; None exactly where it is more than a history
// may weigh.
fn weigh_all(names: &[NameFact], objects: &[ObjectFact], edges: &[Edge], start: u64) -> Option<u64>
    requires { start ≤ THE_WEIGHT }
    ensures some { IfSome result
        (λ weight. weight ≡ start + weight_of names.now objects.now edges.now) }
    ensures light { IfSome result (λ weight. weight ≤ THE_WEIGHT) }
    ensures none { IfNone result (THE_WEIGHT < start + weight_of names.now objects.now edges.now) }
{
    let names = weigh(names, start)?;
    let objects = weigh(objects, names)?;
    weigh(edges, objects)
}
