ghost use Rattle.std.specs.Prelude.{◌≡◌, ◌↔◌, length, map, slice_get, Some, Contains};
ghost use Rattle.std.specs.Prelude.{IsTrue, IfOk, OnOk, IfSome, IfNone};
ghost use Rattle.std.specs.Option.{option_copied};
ghost use Rattle.oem_graph.specs.Types.{Value as TheValue};
ghost use Rattle.lore_base.specs.Names.{object_of};
ghost use Rattle.lore_base.specs.Databases.{IsWellFormed, AreAscendingObjects, AreAscendingEdges};
ghost use Rattle.lore_base.specs.Databases.{IsLive, new_graph};
ghost use Rattle.lore_base.specs.ChangeSets.{HasChildren, FitsGraph, IsOverlay, IsGraphAfter};
ghost use Rattle.lore_base.specs.ChangeSets.{AreDead};
ghost use Rattle.lore_base.specs.Deltas.{IsDelta};
ghost use Rattle.oem_graph.specs.Graphs.{IsIndexable, graph_from};
ghost use Rattle.oem_graph.specs.Plans.{graph_then, HasRoom};

use crate::graph_plan::GraphPlan;
use crate::graph_then::GraphThen;
use edge_layers::{Overlay, RunStarts, copied_edges, join_order, sifted_set};
use edge_lists::{EdgeRecord, ObjectRecord, Side, commit_edges, count_there, has_list, push_list};
use graph_changes::{
    count_objects, differing, drop_objects, names_only_in, objects_given, planned_edges,
    put_objects, value_of, values_gone,
};
use index_traits::{Adjacent, ValueOf};
use lore_base::{
    Changes, Delta, EdgeBuf, Names, NoMemory, ObjectList, OemText, Oid, OidBuf, Steps, TryCopy,
    Value,
};
use slab::Slab;
use std::alloc::Global;
use std::marker::Model;
use std::sync::ledger::Ledger;

/// The graph of a database: its names, its objects in ascending order with the heads of their lists,
/// its edges as records in those lists, and the number that the next object gets.
#[derive(Drop)]
pub struct Graph {
    names: Names,
    next: u64,
    objects: Vec<ObjectRecord>,
    records: Slab<EdgeRecord>,
}

impl Model for Graph {
    ghost use Rattle.std.specs.Prelude.{◌-◌, length, map, vec_capacity};
    ghost use Rattle.slab.specs.Slab.{slab_len};
    ghost use Rattle.edge_lists.specs.Objects as lists;
    ghost use Rattle.edge_lists.specs.Views.{edges_of};
    ghost use Rattle.oem_graph.specs.Graphs.{RoomyGraph};
    ghost use Rattle.oem_graph.specs.inside.Linked.{IsLinkedGraph};

    ghost Value = { RoomyGraph };

    ghost view = { λ g. record {
      graph = record {
        names = g.names;
        objects = map lists.object_of g.objects.items;
        edges = edges_of g.records;
        next = g.next;
      };
      object_room = vec_capacity g.objects - length g.objects.items;
      edge_room = g.records.capacity - slab_len g.records;
    } };

    ghost invariant = { λ g. IsLinkedGraph g.names g.objects.items g.records g.next };
}

impl Graph {
    /// The graph of nothing, with 1 as the next number. Takes no memory.
    pub fn new(alloc: Global) -> Graph
        ensures { result.graph ≡ new_graph }
    {
        Graph {
            names: Names::new(alloc),
            next: 1,
            objects: Vec::new(alloc),
            records: Slab::new(alloc),
        }
    }

    /// The graph whose names, objects and edges are copies of those that the changes bring, with
    /// this next number. Object numbers may have gaps. It is the graph of nothing in which they are
    /// put in place.
    pub fn restored(alloc: Global, changes: &Changes, next: u64) -> Result<Graph, NoMemory>
        requires { IsIndexable (graph_from changes.now next) }
        ensures { IfOk result (λ graph. graph.graph ≡ graph_from changes.now next) }
    {
        let plan = whole_plan(alloc, changes, next)?;
        let mut graph = Graph::new(alloc);
        graph.reserve(&plan)?;
        graph.commit(plan);
        Ok(graph)
    }

    /// The table of names.
    pub fn names(&self) -> &Names
        ensures { result.now ≡ self.now.graph.names }
    {
        &self.names
    }

    /// The object of the name; None exactly where the name isn't there. Takes no memory.
    pub fn name(&self, text: &OemText) -> Option<Oid>
        ensures { result ≡ object_of self.now.graph.names text.now }
    {
        self.names.find(text)
    }

    /// The number of live objects.
    pub fn objects(&self) -> u32
        ensures count { result ≡ length self.now.graph.objects }
        ensures indexable { IsIndexable self.now.graph }
    {
        self.objects.len() as u32
    }

    /// The live object at place `i` in ascending order, counted from 0; None exactly where there
    /// are not so many. Takes no memory and counts no step.
    pub fn object(&self, i: u32) -> Option<Oid>
        ensures { result ≡ slice_get (map (λ object. object.0) self.now.graph.objects) i }
    {
        let object = self.objects.as_slice().get(i as usize)?;
        Some(object.oid)
    }

    /// The number of edges.
    pub fn edges(&self) -> u32
        ensures count { result ≡ length self.now.graph.edges }
        ensures indexable { IsIndexable self.now.graph }
    {
        self.records.len() as u32
    }

    /// The number that the next object gets, 1 to 4,294,967,296.
    pub fn next(&self) -> u64
        ensures number { result ≡ self.now.graph.next }
        ensures indexable { IsIndexable self.now.graph }
    {
        self.next
    }

    /// The object's value; None exactly where the object isn't live. Takes no memory and counts no
    /// step.
    pub fn value(&self, oid: Oid) -> Option<&Value>
        ensures found { IfSome result (λ value. Contains self.now.graph.objects (oid, value.now)) }
        ensures none { IfNone result (¬ IsLive self.now.graph.objects oid) }
        ensures only { (value : TheValue) → Contains self.now.graph.objects (oid, value)
            → option_copied result ≡ Some value }
    {
        value_of(self.objects.as_slice(), oid)
    }

    /// Whether an edge leaves the object. Takes no memory and counts no step.
    pub fn has_edge(&self, oid: Oid) -> bool
        ensures { IsTrue result ↔ HasChildren self.now.graph.edges oid }
    {
        has_list(self.objects.as_slice(), Side::Out, oid)
    }

    /// The edges that there are once the changes are made, before objects vanish. No step is
    /// counted.
    pub fn overlay<'a>(&'a self, changes: &'a Changes) -> Result<Overlay<'a>, NoMemory>
        requires fits { FitsGraph self.now.graph changes.now }
        ensures { IfOk result (λ overlay. IsOverlay self.now.graph.edges changes.now
            overlay.edges overlay.lost overlay.fresh) }
    {
        let alloc = *self.objects.allocator();
        let (objects, records) = (self.objects.as_slice(), &self.records);
        let removed = sifted_set(alloc, objects, records, changes.removed.as_slice())?;
        let added = sifted_set(alloc, objects, records, changes.added.as_slice())?;
        let (lost, fresh) = (removed.there, added.absent);
        let overlay = Overlay::new(alloc, objects, records, lost, fresh)?;
        Ok(overlay)
    }

    /// Works out what becomes of the graph with these changes, where `dead` lists the objects that
    /// no name walks to once they are made, in ascending order. The graph stays as it is.
    pub fn prepare(&self, changes: &Changes, dead: &OidBuf) -> Result<GraphPlan, NoMemory>
        requires well_formed { IsWellFormed self.now.graph }
        requires fits { FitsGraph self.now.graph changes.now }
        requires dead { AreDead self.now.graph changes.now dead.now }
        ensures after { IfOk result (λ plan.
            IsGraphAfter self.now.graph changes.now (graph_then self.now.graph plan)) }
        ensures delta { IfOk result (λ plan.
            IsDelta self.now.graph (graph_then self.now.graph plan) plan.delta) }
    {
        let alloc = *self.objects.allocator();
        let (objects, records) = (self.objects.as_slice(), &self.records);
        let oids = dead.as_slice();
        let names = self.names.changed_by(changes)?;
        let given = objects_given(alloc, changes, oids)?;
        let objects_come = differing(alloc, objects, given)?;
        let edges = planned_edges(alloc, objects, records, changes, oids)?;
        let dead_too = dead.try_copy(alloc)?;
        let names_gone = names_only_in(alloc, &self.names, &names)?;
        let names_come = names_only_in(alloc, &names, &self.names)?;
        let objects_gone = values_gone(alloc, objects, oids, objects_come.as_slice())?;
        let delta = Delta {
            names_gone,
            names_come,
            objects_gone,
            objects_come,
            edges_gone: edges.gone,
            edges_come: edges.come,
        };
        Ok(GraphPlan {
            names,
            dead: dead_too,
            delta,
            next: self.next + changes.made.len() as u64,
            likely: edges.likely,
            by_child: edges.by_child,
            keys: edges.keys,
            starts: edges.starts,
        })
    }

    /// The number of objects that the plan leads to, of this graph or of one that is equal.
    pub fn objects_then(&self, plan: &GraphPlan) -> usize
        ensures { result ≡ length (graph_then self.now.graph plan.now).objects }
    {
        count_objects(
            self.objects.as_slice(),
            plan.dead.as_slice(),
            plan.delta.objects_come.as_slice(),
        )
    }

    /// The number of edges that the plan leads to, of this graph or of one that is equal.
    pub fn edges_then(&self, plan: &GraphPlan) -> usize
        ensures { result ≡ length (graph_then self.now.graph plan.now).edges }
    {
        let gone = count_there(
            self.objects.as_slice(),
            &self.records,
            plan.delta.edges_gone.as_slice(),
            plan.likely.as_slice(),
        );
        self.records.len() - gone + plan.delta.edges_come.as_slice().len()
    }

    /// The objects and the edges that the plan leads to, for readers before it is put in place.
    /// Takes no memory.
    pub fn then<'a>(&'a self, plan: &'a GraphPlan) -> GraphThen<'a>
        requires objects { AreAscendingObjects (graph_then self.now.graph plan.now).objects }
        requires edges { AreAscendingEdges (graph_then self.now.graph plan.now).edges }
        ensures objects { result.objects ≡ (graph_then self.now.graph plan.now).objects }
        ensures edges { result.edges ≡ (graph_then self.now.graph plan.now).edges }
    {
        GraphThen {
            objects: self.objects.as_slice(),
            records: &self.records,
            dead: plan.dead.as_slice(),
            given: plan.delta.objects_come.as_slice(),
            gone: plan.delta.edges_gone.as_slice(),
            come: plan.delta.edges_come.as_slice(),
            starts: &plan.starts,
        }
    }

    /// Takes the memory that `commit` needs for this plan. The graph stays equal, whatever the
    /// answer.
    pub fn reserve(&mut self, plan: &GraphPlan) -> Result<(), NoMemory>
        ensures room { OnOk result (HasRoom self.new plan.now) }
        ensures same { self.new.graph ≡ self.old.graph }
    {
        self.objects.reserve(plan.delta.objects_come.len())?;
        self.records.reserve(plan.delta.edges_come.len())?;
        Ok(())
    }

    /// Puts in place what the plan brings. Takes no memory. The graph after it is in order and has
    /// fewer than 4,294,967,296 edges.
    pub fn commit(&mut self, plan: GraphPlan)
        requires leads { IsIndexable (graph_then self.old.graph plan) }
        requires room { HasRoom self.old plan }
        ensures { self.new.graph ≡ graph_then self.old.graph plan }
    {
        let GraphPlan {
            names,
            dead,
            delta,
            next,
            likely,
            by_child,
            mut keys,
            ..
        } = plan;
        let Delta {
            objects_come,
            edges_gone,
            edges_come,
            ..
        } = delta;
        self.names = names;
        self.next = next;
        put_objects(&mut self.objects, objects_come);
        // Told of its capacity, a slab has room for what it holds.
        let _capacity = self.records.capacity();
        commit_edges(
            self.objects.as_mut_slice(),
            &mut self.records,
            edges_come.as_slice(),
            &mut keys,
            by_child.as_slice(),
            edges_gone.as_slice(),
            likely.as_slice(),
        );
        drop_objects(&mut self.objects, dead.as_slice());
    }
}

impl Adjacent for Graph {
    ghost edges = { λ g. g.graph.edges };

    fn out_edges<L: Ledger>(
        &self,
        oid: Oid,
        buf: &mut EdgeBuf,
        steps: &mut Steps<L>,
    ) -> Result<(), NoMemory> {
        let before = buf.len();
        push_list(self.objects.as_slice(), &self.records, Side::Out, oid, buf)?;
        steps.tick(1 + (buf.as_slice().len() - before) as u64);
        Ok(())
    }
}

impl ValueOf for Graph {
    ghost objects = { λ g. g.graph.objects };

    fn value_of(&self, oid: Oid) -> Option<&Value> {
        self.value(oid)
    }
}

// The plan that makes the graph of nothing the one that the changes bring.
fn whole_plan(alloc: Global, changes: &Changes, next: u64) -> Result<GraphPlan, NoMemory>
    requires { IsIndexable (graph_from changes.now next) }
    ensures plan { IfOk result (λ plan. graph_then new_graph plan ≡ graph_from changes.now next) }
{
    let come = copied_edges(alloc, changes.added.as_slice())?;
    let by_child = join_order(alloc, come.as_slice(), true)?;
    let keys = Vec::with_capacity(alloc, come.len())?;
    let names = changes.named.try_copy(alloc)?;
    let given = changes.made.try_copy(alloc)?;
    Ok(GraphPlan {
        names,
        dead: OidBuf::new(alloc),
        delta: Delta {
            names_gone: Names::new(alloc),
            names_come: Names::new(alloc),
            objects_gone: ObjectList::new(alloc),
            objects_come: given,
            edges_gone: EdgeBuf::new(alloc),
            edges_come: come,
        },
        next,
        likely: Vec::new(alloc),
        by_child,
        keys,
        starts: RunStarts::none(alloc),
    })
}

#[cfg(test)]
mod tests;
