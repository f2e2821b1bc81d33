ghost use Rattle.std.specs.Prelude.{◌≡◌, ◌↔◌, ◌≤◌, ◌*◌, ◌++◌, length};
ghost use Rattle.std.specs.Prelude.{IsTrue, IfSome, IfOk, IfErr, OnOk, OnErr};
ghost use Rattle.lore_base.specs.Databases.{IsRooted, IsValid, new_database};
ghost use Rattle.lore_base.specs.ChangeSets.{FitsGraph, Fits, IsAfter, IsGraphAfter, IsOverlay};
ghost use Rattle.lore_base.specs.ChangeSets.{AreDead};
ghost use Rattle.lore_base.specs.Deltas.{IsDelta};
ghost use Rattle.lore_base.specs.GuideLimits.{FitsGuide};
ghost use Rattle.lore_base.specs.ChangeCauses.{DatabaseCause};
ghost use Rattle.lore_base.specs.Verdicts.{IsClear, IsToldBy};
ghost use Rattle.set_steps.specs.SetSteps.{reads_of};
ghost use Rattle.read_costs.specs.Spent.{IsSpent};
ghost use Rattle.read_costs.specs.ReadCosts.{link_reads, in_reads};
ghost use Rattle.read_costs.specs.Concerned.{IsInDoubt, IsConcerned, IsTouched};
ghost use Rattle.oem_graph.specs.Plans.{graph_then};
ghost use Rattle.dataguide.specs.Deltas.{IsReady};
ghost use Rattle.dataguide.specs.Changes.{TellsEntering};
ghost use Rattle.lore_base.specs.Restores.{IsWhole, database_from};
ghost use Rattle.oem_labels.specs.Labels.{AreLabels, LeadsFrom, first_uses};
ghost use Rattle.value_changes.specs.Reads.{ReadsChanged};
ghost use Rattle.index_traits.specs.Entries.{AreLinks, AreValueEntries};
ghost use Rattle.lore_store.specs.declared.faults.StoreFault.TheVariants as fault;
ghost use Rattle.lore_store.specs.Faults.{refusal_of, RestoreCause};
ghost use Rattle.lore_store.specs.Reads.{ReadsWithinWork};
ghost use Rattle.lore_store.specs.Stores as spec;
ghost use Rattle.lore_store.specs.Stores.{database_then, IsPreparedFor, HasRoomFor, IsGuided};
ghost use Rattle.lore_store.specs.Stores.{IsLimit, IsStored, database_of, store_order};
ghost use Rattle.lore_store.specs.Types.{EDGES as THE_EDGES};
ghost use Rattle.lore_store.specs.Indexes.{AreIndexed, AreIndexes};
ghost use Rattle.lore_store.specs.inside.Parts.{plan_with, StaysWithinWork};
ghost use Rattle.lore_store.specs.inside.Sizes.{SizeCause, SetsCause, sets_order};
ghost use Rattle.lore_store.specs.inside.Unlinked.{LinkNothing};

use crate::cuts::{CutLinks, cut_links, few_of};
use crate::faults::{RestoreFault, StoreFault};
use crate::indexes::{
    IndexPlan, Indexes, built_indexes, commit_indexes, planned_indexes, reserve_indexes,
};
use crate::prepared::{OtherParts, Prepared, prepared_of};
use dataguide::{Entered, Guide, GuideDelta};
use link_index::LinkIndex;
use lore_base::limits::{EDGES, NAMES, NODES, OBJECTS, START_NODES};
use lore_base::{Changes, Mode, NoMemory, OidBuf, Restored, Steps, TextList};
use oem_graph::{Graph, GraphPlan, Overlay};
use oem_labels::{LabelPlan, LabelTable};
use oem_reach::dead_objects;
use std::alloc::Global;
use std::marker::Model;
use std::sync::ledger::Ledger;
use value_index::ValueIndex;

/// One valid database: its graph, its table of labels, its limit on the guide's nodes, its plan
/// mode, its guide, and the indexes of its links and values, all as they would be built from it.
/// Contracts see it as that database and what it is kept in, with the room of each part.
#[derive(Drop)]
pub struct Store {
    labels: LabelTable,
    graph: Graph,
    links: LinkIndex,
    values: ValueIndex,
    guide: Guide,
    limit: u32,
    mode: Mode,
}

impl Model for Store {
    ghost use Rattle.lore_store.specs.Stores.{RoomyDatabase, IsStored, database_of};

    ghost Value = { RoomyDatabase };

    ghost view = { λ s. record {
      db = database_of s.labels s.graph.graph s.limit s.mode;
      kept = s.graph;
      indexes = record { links = s.links; values = s.values };
      guide = s.guide;
    } };

    ghost invariant = { λ s. IsStored (database_of s.labels s.graph.graph s.limit s.mode)
        (record { links = s.links; values = s.values }) s.guide };
}

impl Store {
    /// The new database. Takes no memory.
    pub fn new(alloc: Global) -> Store
        ensures { result.db ≡ new_database }
    {
        Store {
            labels: LabelTable::new(alloc),
            graph: Graph::new(alloc),
            links: LinkIndex::new(alloc),
            values: ValueIndex::new(alloc),
            guide: Guide::new(alloc),
            limit: START_NODES,
            mode: Mode::Auto,
        }
    }

    /// The graph of the database.
    pub fn graph(&self) -> &Graph
        ensures graph { result.now.graph ≡ self.now.db.graph }
        ensures valid { IsValid self.now.db }
    {
        &self.graph
    }

    /// The table of its labels.
    pub fn labels(&self) -> &LabelTable
        ensures { result.now ≡ self.now.db.labels }
    {
        &self.labels
    }

    /// The index of its edges by their children.
    pub fn links(&self) -> &LinkIndex
        ensures { AreLinks self.now.db.graph.edges result.now.links }
    {
        &self.links
    }

    /// The index of its atomic values by the labels of the edges that enter their objects.
    pub fn values(&self) -> &ValueIndex
        ensures { AreValueEntries self.now.db.graph.objects self.now.db.graph.edges
            result.now.entries }
    {
        &self.values
    }

    /// The guide of the database, its nodes in the order of their least label paths (Goldman and
    /// Widom 1997, strong DataGuide).
    pub fn guide(&self) -> &Guide
        ensures guide { result.now ≡ self.now.guide }
        ensures guided { IsGuided self.now.db.graph self.now.guide }
    {
        &self.guide
    }

    /// The most nodes that the guide may have.
    pub fn limit(&self) -> u32
        ensures { result ≡ self.now.db.nodes }
    {
        self.limit
    }

    /// Sets the most nodes that the guide may have. False, and nothing changes, exactly where the
    /// number is below 1, above `NODES`, or below the number of nodes that there are. Takes no
    /// memory.
    pub fn set_limit(&mut self, limit: u32) -> bool
        ensures told { IsTrue result ↔ IsLimit self.old.db limit }
        ensures set { IsTrue result → self.new.db ≡ record self.old.db { nodes = limit } }
        ensures same { ¬ IsTrue result → self.new.db ≡ self.old.db }
        ensures guide { self.new.guide ≡ self.old.guide }
    {
        if limit < 1 || limit > NODES || limit < self.guide.len() {
            return false;
        }
        self.limit = limit;
        true
    }

    /// How plans are chosen for selects.
    pub fn mode(&self) -> Mode
        ensures { result ≡ self.now.db.mode }
    {
        self.mode
    }

    /// Sets how plans are chosen. Takes no memory.
    pub fn set_mode(&mut self, mode: Mode)
        ensures set { self.new.db ≡ record self.old.db { mode = mode } }
        ensures same { self.new ≡ record self.old { db = self.new.db } }
    {
        self.mode = mode;
    }

    /// Works out what these changes, which fit the database, lead to: what no name walks to then
    /// vanishes. The database stays as it is. Refused are, in this order, more names, objects and
    /// edges than a database holds (`TooManyNames`, `TooManyObjects`, `TooManyEdges`), and a guide
    /// that doesn't fit: of its sets, in the order of their least label paths, the first that
    /// passes a limit passes the one on nodes (`GuideNodes`) or the one on members (`GuideCells`).
    /// What is read is within four times the work of the changes, also where they are refused.
    pub fn prepare<L: Ledger>(
        &self,
        alloc: Global,
        changes: &Changes,
        steps: &mut Steps<L>,
    ) -> Result<Prepared, StoreFault>
        requires fits { Fits self.now.db changes.now }
        ensures after { IfOk result (λ plan.
            IsAfter self.now.db changes.now (database_then self.now.db plan)) }
        ensures leads { IfOk result (λ plan. IsPreparedFor self.now.db self.now.guide plan) }
        ensures delta { IfOk result (λ plan. IsDelta self.now.db.graph
            (database_then self.now.db plan).graph plan.graph.delta) }
        ensures ok { OnOk result (IsClear (DatabaseCause self.now.db changes.now) store_order) }
        ensures err { let cause = DatabaseCause self.now.db changes.now in
            IfErr result (λ fault. IsToldBy cause store_order (refusal_of fault)) }
        ensures reads { OnOk result
            (ReadsWithinWork self.now.db.graph changes.now steps.old steps.new) }
        ensures refused { IfErr result (λ given. (given ≡ fault.NoMemory → ⊥)
            → ReadsWithinWork self.now.db.graph changes.now steps.old steps.new) }
    {
        let overlay = self.graph.overlay(changes)?;
        let prepared = self.prepare_over(alloc, changes, &overlay, steps);
        drop(overlay);
        prepared
    }

    /// Takes the memory that `commit` needs for this plan. The database stays equal, whatever the
    /// answer.
    pub fn reserve(&mut self, prepared: &Prepared) -> Result<(), NoMemory>
        ensures room { OnOk result (HasRoomFor self.new prepared.now) }
        ensures same { self.new.db ≡ self.old.db }
        ensures guide { self.new.guide ≡ self.old.guide }
    {
        self.graph.reserve(&prepared.graph)?;
        make_ready(&mut self.guide, &prepared.guide)?;
        reserve_indexes(&mut self.links, &mut self.values, &prepared.indexes)
    }

    /// Puts in place what was prepared. Takes no memory.
    pub fn commit(&mut self, prepared: Prepared)
        requires leads { IsPreparedFor self.old.db self.old.guide prepared }
        requires room { HasRoomFor self.old prepared }
        ensures { self.new.db ≡ database_then self.old.db prepared }
    {
        let Prepared {
            graph,
            labels,
            indexes,
            guide,
        } = prepared;
        self.graph.commit(graph);
        self.labels.commit_new(labels);
        commit_indexes(&mut self.links, &mut self.values, indexes);
        if let Some(guide) = guide {
            guide_maintain::commit(&mut self.guide, guide);
        }
    }

    /// Makes the new database the restored one, each part of which is built once. Where an error
    /// is answered the database stays new. `GuideNodes` and `GuideCells` where the guide doesn't
    /// fit by the restored limit, as `prepare` answers them.
    pub fn restore<L: Ledger>(
        &mut self,
        alloc: Global,
        restored: &Restored,
        steps: &mut Steps<L>,
    ) -> Result<(), RestoreFault>
        requires new { self.old.db ≡ new_database }
        requires whole { IsWhole restored.now }
        ensures ok { OnOk result (self.new.db ≡ database_from restored.now) }
        ensures same { OnErr result (self.new ≡ self.old) }
        ensures valid { OnOk result (IsValid (database_from restored.now)) }
        ensures cause { IfErr result (RestoreCause (database_from restored.now)) }
    {
        match Store::restored(alloc, restored, steps) {
            Ok(store) => {
                put(self, store);
                Ok(())
            }
            Err(fault) => Err(fault),
        }
    }

    // The store of the restored database.
    fn restored<L: Ledger>(
        alloc: Global,
        restored: &Restored,
        steps: &mut Steps<L>,
    ) -> Result<Store, RestoreFault>
        requires { IsWhole restored.now }
        ensures ok { IfOk result (λ store. store.db ≡ database_from restored.now) }
        ensures valid { OnOk result (IsValid (database_from restored.now)) }
        ensures cause { IfErr result (RestoreCause (database_from restored.now)) }
    {
        let graph = Graph::restored(alloc, &restored.changes, restored.next)?;
        match restored_parts(alloc, &graph, restored, steps) {
            Ok(parts) => Ok(Store::of_parts(graph, parts, restored.nodes, restored.mode)),
            Err(fault) => {
                drop(graph);
                Err(fault)
            }
        }
    }

    // The store of these parts.
    fn of_parts(graph: Graph, parts: StoredParts, limit: u32, mode: Mode) -> Store
        requires { IsStored (database_of parts.labels graph.graph limit mode) parts.indexes
            parts.guide }
        ensures { result.db ≡ database_of parts.labels graph.graph limit mode }
    {
        let StoredParts {
            labels,
            indexes,
            guide,
        } = parts;
        let Indexes { links, values } = indexes;
        Store {
            labels,
            graph,
            links,
            values,
            guide,
            limit,
            mode,
        }
    }

    // `prepare` over the edges that there are once the changes are made. Large values are let go in
    // words: what is let go at each way out of a function is proved there each time, at length.
    fn prepare_over<L: Ledger>(
        &self,
        alloc: Global,
        changes: &Changes,
        overlay: &Overlay,
        steps: &mut Steps<L>,
    ) -> Result<Prepared, StoreFault>
        requires fits { Fits self.now.db changes.now }
        requires overlay { IsOverlay self.now.db.graph.edges changes.now overlay.now.edges
            overlay.now.lost overlay.now.fresh }
        ensures after { IfOk result (λ plan.
            IsAfter self.now.db changes.now (database_then self.now.db plan)) }
        ensures leads { IfOk result (λ plan. IsPreparedFor self.now.db self.now.guide plan) }
        ensures delta { IfOk result (λ plan. IsDelta self.now.db.graph
            (database_then self.now.db plan).graph plan.graph.delta) }
        ensures ok { OnOk result (IsClear (DatabaseCause self.now.db changes.now) store_order) }
        ensures err { let cause = DatabaseCause self.now.db changes.now in
            IfErr result (λ fault. IsToldBy cause store_order (refusal_of fault)) }
        ensures reads { OnOk result
            (ReadsWithinWork self.now.db.graph changes.now steps.old steps.new) }
        ensures refused { IfErr result (λ given. (given ≡ fault.NoMemory → ⊥)
            → ReadsWithinWork self.now.db.graph changes.now steps.old steps.new) }
    {
        let dead = self.dead(alloc, changes, overlay, steps)?;
        let planned = self.graph.prepare(changes, &dead);
        drop(dead);
        let graph = planned?;
        match self.other_parts(alloc, changes, overlay, &graph, steps) {
            Ok(parts) => Ok(prepared_of(graph, parts)),
            Err(fault) => {
                drop(graph);
                Err(fault)
            }
        }
    }

    // What a plan has beside that of the graph.
    fn other_parts<L: Ledger>(
        &self,
        alloc: Global,
        changes: &Changes,
        overlay: &Overlay,
        plan: &GraphPlan,
        steps: &mut Steps<L>,
    ) -> Result<OtherParts, StoreFault>
        requires fits { Fits self.now.db changes.now }
        requires overlay { IsOverlay self.now.db.graph.edges changes.now overlay.now.edges
            overlay.now.lost overlay.now.fresh }
        requires after { IsGraphAfter self.now.db.graph changes.now
            (graph_then self.now.db.graph plan.now) }
        requires delta { IsDelta self.now.db.graph (graph_then self.now.db.graph plan.now)
            plan.now.delta }
        ensures after { IfOk result (λ parts. IsAfter self.now.db changes.now
            (database_then self.now.db (plan_with plan.now parts))) }
        ensures leads { IfOk result (λ parts.
            IsPreparedFor self.now.db self.now.guide (plan_with plan.now parts)) }
        ensures ok { OnOk result (IsClear (DatabaseCause self.now.db changes.now) store_order) }
        ensures err { let cause = DatabaseCause self.now.db changes.now in
            IfErr result (λ fault. IsToldBy cause store_order (refusal_of fault)) }
        ensures reads { OnOk result (StaysWithinWork self.now.db.graph changes.now
            overlay.now.edges steps.old steps.new) }
        ensures refused { IfErr result (λ given. (given ≡ fault.NoMemory → ⊥)
            → StaysWithinWork self.now.db.graph changes.now overlay.now.edges steps.old
            steps.new) }
    {
        // That the database is valid is known where its graph is looked at.
        let _valid = self.graph();
        self.check_sizes(plan)?;
        let cut = self.links_cut(alloc, changes, overlay, plan, steps)?;
        let planned = self.guide_then(changes, plan, &cut, steps);
        drop(cut);
        let guide = planned?;
        match self.labels_and_entries(alloc, changes, overlay, plan, steps) {
            Ok((labels, indexes)) => Ok(OtherParts {
                labels,
                indexes,
                guide,
            }),
            Err(error) => {
                drop(guide);
                Err(StoreFault::from(error))
            }
        }
    }

    // The labels that come with the changes, and the entries of the indexes that go and come.
    fn labels_and_entries<L: Ledger>(
        &self,
        alloc: Global,
        changes: &Changes,
        overlay: &Overlay,
        plan: &GraphPlan,
        steps: &mut Steps<L>,
    ) -> Result<(LabelPlan, IndexPlan), NoMemory>
        requires fits { Fits self.now.db changes.now }
        requires overlay { IsOverlay self.now.db.graph.edges changes.now overlay.now.edges
            overlay.now.lost overlay.now.fresh }
        requires after { IsGraphAfter self.now.db.graph changes.now
            (graph_then self.now.db.graph plan.now) }
        requires delta { IsDelta self.now.db.graph (graph_then self.now.db.graph plan.now)
            plan.now.delta }
        requires sized { IsClear (SizeCause (graph_then self.now.db.graph plan.now)) store_order }
        ensures come { IfOk result (λ parts.
            parts.0.come ≡ first_uses self.now.db.labels changes.now.labels) }
        ensures leads { IfOk result (λ parts. LeadsFrom self.now.db.labels parts.0) }
        ensures entries { IfOk result (λ parts. AreIndexed self.now.db.graph
            (graph_then self.now.db.graph plan.now) parts.1) }
        ensures reads { OnOk result (ReadsChanged overlay.now.edges plan.now.delta.edges_gone
            plan.now.delta.edges_come plan.now.delta.objects_come self.now.db.graph.objects
            (graph_then self.now.db.graph plan.now).objects steps.old steps.new) }
    {
        let labels = self.labels.plan_new(&changes.labels)?;
        let (links, values) = (&self.links, &self.values);
        match planned_indexes(alloc, links, values, &self.graph, overlay, plan, steps) {
            Ok(indexes) => Ok((labels, indexes)),
            Err(error) => {
                drop(labels);
                Err(error)
            }
        }
    }

    // The objects that no name walks to once the changes are made, whose edges the overlay has. Where
    // they link nothing anew there is none, and nothing is searched.
    fn dead<L: Ledger>(
        &self,
        alloc: Global,
        changes: &Changes,
        overlay: &Overlay,
        steps: &mut Steps<L>,
    ) -> Result<OidBuf, NoMemory>
        requires fits { FitsGraph self.now.db.graph changes.now }
        requires overlay { IsOverlay self.now.db.graph.edges changes.now overlay.now.edges
            overlay.now.lost overlay.now.fresh }
        ensures dead { IfOk result (λ dead. AreDead self.now.db.graph changes.now dead) }
        ensures spent { let between = overlay.now.edges in
            OnOk result (IsSpent (IsInDoubt self.now.db.graph changes.now between)
            (λ oid. 2 * link_reads between oid) steps.old steps.new) }
    {
        let names = self.graph.names();
        if link_nothing(changes) {
            return Ok(OidBuf::new(alloc));
        }
        let (lost, fresh) = (overlay.lost(), overlay.fresh());
        dead_objects(alloc, names, overlay, lost, fresh, changes, steps)
    }

    // The children of the edges that the changes take away, if these are few, and the edges that enter
    // them in the graph that the plan leads to. The overlay has more: those that leave what vanishes.
    fn links_cut<L: Ledger>(
        &self,
        alloc: Global,
        changes: &Changes,
        overlay: &Overlay,
        plan: &GraphPlan,
        steps: &mut Steps<L>,
    ) -> Result<CutLinks, NoMemory>
        requires fits { FitsGraph self.now.db.graph changes.now }
        requires overlay { IsOverlay self.now.db.graph.edges changes.now overlay.now.edges
            overlay.now.lost overlay.now.fresh }
        requires after { IsGraphAfter self.now.db.graph changes.now
            (graph_then self.now.db.graph plan.now) }
        ensures tells { IfOk result (λ cut. TellsEntering
            (graph_then self.now.db.graph plan.now).edges cut.oids cut.edges) }
        ensures spent { let between = overlay.now.edges in
            OnOk result (IsSpent (IsConcerned self.now.db.graph changes.now between)
            (in_reads between) steps.old steps.new) }
    {
        // Only the clauses speak of the changes.
        let _ = changes;
        let then = self.graph.then(plan);
        let lost = overlay.lost();
        let edges = few_of(lost.as_slice());
        let cut = cut_links(alloc, edges, overlay, &then, steps)?;
        Ok(cut)
    }

    // The guide of the graph that the plan leads to. None where nothing is linked anew, and so the
    // guide stays.
    fn guide_then<L: Ledger>(
        &self,
        changes: &Changes,
        plan: &GraphPlan,
        cut: &CutLinks,
        steps: &mut Steps<L>,
    ) -> Result<Option<GuideDelta>, StoreFault>
        requires fits { FitsGraph self.now.db.graph changes.now }
        requires after { IsGraphAfter self.now.db.graph changes.now
            (graph_then self.now.db.graph plan.now) }
        requires delta { IsDelta self.now.db.graph (graph_then self.now.db.graph plan.now)
            plan.now.delta }
        requires tells { TellsEntering (graph_then self.now.db.graph plan.now).edges cut.now.oids
            cut.now.edges }
        ensures guided { let after = graph_then self.now.db.graph plan.now in
            IfOk result (λ guide. IsGuided after (spec.guide_then self.now.guide guide)) }
        ensures ready { IfOk result (λ guide. IfSome guide (IsReady self.now.guide.nodes)) }
        ensures fits { let after = graph_then self.now.db.graph plan.now in
            OnOk result (FitsGuide self.now.db.nodes after.names after.edges) }
        ensures err { let after = graph_then self.now.db.graph plan.now in
            IfErr result (λ fault.
            IsToldBy (SetsCause self.now.db.nodes after) sets_order (refusal_of fault)) }
        ensures spent { let after = graph_then self.now.db.graph plan.now in
            OnOk result (IsSpent (IsTouched self.now.db.graph changes.now after)
            (reads_of after.edges) steps.old steps.new) }
        ensures refused { let after = graph_then self.now.db.graph plan.now in
            IfErr result (λ given. (given ≡ fault.NoMemory → ⊥)
            → IsSpent (IsTouched self.now.db.graph changes.now after) (reads_of after.edges)
            steps.old steps.new) }
    {
        let then = self.graph.then(plan);
        if link_nothing(changes) {
            return Ok(None);
        }
        let delta = plan.delta();
        let (lost, fresh) = (delta.edges_gone.as_slice(), delta.edges_come.as_slice());
        let names = plan.names();
        let edges = cut.edges.as_slice();
        let entered = Entered {
            oids: &cut.oids,
            edges,
        };
        let guide = guide_maintain::plan(
            &self.guide,
            &then,
            lost,
            fresh,
            &entered,
            names,
            self.limit,
            steps,
        )?;
        Ok(Some(guide))
    }

    // Refuses a plan after which the database would hold too much.
    fn check_sizes(&self, plan: &GraphPlan) -> Result<(), StoreFault>
        ensures ok { let after = graph_then self.now.db.graph plan.now in
            OnOk result (IsClear (SizeCause after) store_order) }
        ensures err { let after = graph_then self.now.db.graph plan.now in
            IfErr result (λ fault. IsToldBy (SizeCause after) store_order (refusal_of fault)) }
    {
        if plan.names_len() > NAMES {
            return Err(StoreFault::TooManyNames);
        }
        if self.graph.objects_then(plan) > OBJECTS {
            return Err(StoreFault::TooManyObjects);
        }
        if self.graph.edges_then(plan) > EDGES {
            return Err(StoreFault::TooManyEdges);
        }
        Ok(())
    }
}

// What a store has beside its graph.
#[derive(Drop)]
struct StoredParts {
    labels: LabelTable,
    indexes: Indexes,
    guide: Guide,
}

// What the store of the restored database has beside its graph, which is this one.
fn restored_parts<L: Ledger>(
    alloc: Global,
    graph: &Graph,
    restored: &Restored,
    steps: &mut Steps<L>,
) -> Result<StoredParts, RestoreFault>
    requires whole { IsWhole restored.now }
    requires same { graph.now.graph ≡ (database_from restored.now).graph }
    ensures labels { IfOk result (λ parts. parts.labels ≡ restored.now.changes.labels) }
    ensures stored { IfOk result (λ parts.
        IsStored (database_from restored.now) parts.indexes parts.guide) }
    ensures cause { IfErr result (RestoreCause (database_from restored.now)) }
{
    let guide = Guide::build(alloc, graph, graph.names(), restored.nodes, steps)?;
    match labels_and_indexes(alloc, graph, &restored.changes, steps) {
        Ok((labels, indexes)) => Ok(StoredParts {
            labels,
            indexes,
            guide,
        }),
        Err(error) => {
            drop(guide);
            Err(RestoreFault::from(error))
        }
    }
}

// The table of the labels that come, and the indexes of the graph, which has the edges that come.
fn labels_and_indexes<L: Ledger>(
    alloc: Global,
    graph: &Graph,
    changes: &Changes,
    steps: &mut Steps<L>,
) -> Result<(LabelTable, Indexes), NoMemory>
    requires texts { AreLabels changes.now.labels }
    requires rooted { IsRooted graph.now.graph }
    requires edges { changes.now.added ≡ graph.now.graph.edges }
    requires few { length changes.now.added ≤ THE_EDGES }
    ensures labels { IfOk result (λ parts. parts.0 ≡ changes.now.labels) }
    ensures indexes { IfOk result (λ parts. AreIndexes graph.now.graph parts.1) }
{
    let labels = table_of(alloc, &changes.labels)?;
    match built_indexes(alloc, graph, &changes.added, steps) {
        Ok(indexes) => Ok((labels, indexes)),
        Err(error) => {
            drop(labels);
            Err(error)
        }
    }
}

// Puts a value in place of another, which is let go. That it can be is proved in few words where
// its type is a parameter.
fn put<T: Drop>(place: &mut T, value: T)
    ensures { place.new ≡ value }
{
    *place = value;
}

// Takes the memory that the guide needs for its plan, if there is one.
fn make_ready(guide: &mut Guide, plan: &Option<GuideDelta>) -> Result<(), NoMemory>
    ensures { guide.new ≡ guide.old }
{
    match plan {
        Some(plan) => guide_maintain::reserve(guide, plan),
        None => Ok(()),
    }
}

// Whether no object is made, and no edge and no name comes or goes.
fn link_nothing(changes: &Changes) -> bool
    ensures { IsTrue result → LinkNothing changes.now }
{
    changes.made.is_empty()
        && changes.added.is_empty()
        && changes.removed.is_empty()
        && changes.named.len() == 0
        && changes.unnamed.is_empty()
}

// The table of these texts, which are distinct.
fn table_of(alloc: Global, texts: &TextList) -> Result<LabelTable, NoMemory>
    requires { AreLabels texts.now }
    ensures { IfOk result (λ table. table ≡ texts.now) }
{
    let table = LabelTable::new(alloc);
    let planned = table.plan_new(texts);
    match planned {
        Ok(plan) => Ok(with_labels(table, plan)),
        Err(error) => {
            drop(table);
            Err(error)
        }
    }
}

// The table with the labels of its plan.
fn with_labels(table: LabelTable, plan: LabelPlan) -> LabelTable
    requires { LeadsFrom table plan }
    ensures { result ≡ table ++ plan.come }
{
    let mut table = table;
    table.commit_new(plan);
    table
}

#[cfg(test)]
mod tests;
