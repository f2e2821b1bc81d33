ghost use Rattle.std.specs.Prelude.{◌≡◌, ◌+◌, sum_by, IfOk, IfErr};
ghost use Rattle.lore_base.specs.Databases.{AreAscendingEdges};
ghost use Rattle.lore_base.specs.PathOrder.{AreInPathOrder};
ghost use Rattle.lore_base.specs.GuideLimits.{FitsGuide};
ghost use Rattle.dataguide.specs.Types.faults;
ghost use Rattle.dataguide.specs.ReadCosts.{ReadsAtMost};
ghost use Rattle.set_steps.specs.SetSteps.{reads_of};
ghost use Rattle.set_explorer.specs.Touched.{ReadsTouched, ReadsSome, parents_of as the_parents};
ghost use Rattle.set_explorer.specs.Changes.{TellsEntering};
ghost use Rattle.dataguide.specs.Guides.{StandsFor};
ghost use Rattle.set_explorer.specs.Nodes.{sets_of};
ghost use Rattle.dataguide.specs.Deltas.{guide_then, IsReady, StoodFor};
ghost use Rattle.set_explorer.specs.PlannedNodes.{nodes_then};
ghost use Rattle.set_explorer.specs.GuideCauses.{GuideCause};

use crate::data_guide::Guide;
use crate::delta::GuideDelta;
use crate::entries::Entries;
use index_traits::Adjacent;
use lore_base::{Edge, Names, OidBuf, Steps};
use oem_set::OidSet;
use set_explorer::{Change, Entered, Explored, GuideFault, explore_sets, parents_of};
use std::alloc::Global;
use std::sync::ledger::Ledger;

impl Guide {
    /// The guide of a graph from its names on, found breadth first: sets by their least label
    /// paths.
    ///
    /// `Nodes` and `Cells` exactly where the first set that passes a limit passes this one. The
    /// edges of a set are read once, also where the answer is a refusal; then at most as many sets
    /// as the limit were read.
    pub fn build<A: Adjacent, L: Ledger>(
        alloc: Global,
        graph: &A,
        names: &Names,
        limit: u32,
        steps: &mut Steps<L>,
    ) -> Result<Guide, GuideFault>
        ensures guide { IfOk result (λ guide. StandsFor guide names.now (A.edges graph.now)) }
        ensures order { IfOk result
            (λ guide. AreInPathOrder names.now (A.edges graph.now) (sets_of guide.nodes)) }
        ensures fits { IfOk result (λ _. FitsGuide limit names.now (A.edges graph.now)) }
        ensures steps { IfOk result (λ guide. steps.new
            ≡ steps.old + sum_by (reads_of (A.edges graph.now)) (sets_of guide.nodes)) }
        ensures cause { IfErr result
            (λ fault. GuideCause limit names.now (A.edges graph.now) fault) }
        ensures reads { IfErr result (λ fault. (fault ≡ faults.NoMemory → ⊥)
            → ReadsAtMost limit names.now (A.edges graph.now) steps.old steps.new) }
    {
        let mut guide = Guide::new(alloc);
        let none = OidSet::from_ascending(OidBuf::new(alloc));
        let entered = Entered {
            oids: &none,
            edges: &[],
        };
        let delta = guide.plan(graph, &[], &[], &entered, names, limit, steps)?;
        guide.commit(delta);
        Ok(guide)
    }

    /// Plans the guide of the graph after a change, where this one stood before it, and these edges,
    /// each list in ascending order, were lost and are fresh. Of some objects it is told which edges
    /// enter them afterwards. It is found as `build` finds it, and refused as there. A set is read
    /// once, where it is no node's or a lost edge leaves a member: all of it, or, where the node noted
    /// for it lost no edge, gained none and has a part of it, the other members, or, where it is a
    /// node's and it is told of the children of its lost edges, nothing. A set that isn't read has the
    /// steps of its node, without what lost edges take from them and with what the fresh ones add.
    pub fn plan<A: Adjacent, L: Ledger>(
        &self,
        after: &A,
        lost: &[Edge],
        fresh: &[Edge],
        entered: &Entered,
        names: &Names,
        limit: u32,
        steps: &mut Steps<L>,
    ) -> Result<GuideDelta, GuideFault>
        requires stood { StoodFor self.now lost.now fresh.now (A.edges after.now) }
        requires ascend { AreAscendingEdges fresh.now }
        requires lost_ascend { AreAscendingEdges lost.now }
        requires tells { TellsEntering (A.edges after.now) entered.now.oids.now entered.now.edges.now }
        ensures guide { IfOk result (λ delta.
            StandsFor (guide_then self.now.nodes delta) names.now (A.edges after.now)) }
        ensures order { IfOk result (λ delta. AreInPathOrder names.now (A.edges after.now)
            (sets_of (nodes_then self.now.nodes delta.nodes))) }
        ensures fits { IfOk result (λ _. FitsGuide limit names.now (A.edges after.now)) }
        ensures ready { IfOk result (λ delta. IsReady self.now.nodes delta) }
        ensures steps { IfOk result (λ delta. ReadsTouched (sets_of self.now.nodes)
            (the_parents lost.now) (the_parents fresh.now) (A.edges after.now)
            (sets_of (nodes_then self.now.nodes delta.nodes)) steps.old steps.new) }
        ensures cause { IfErr result
            (λ fault. GuideCause limit names.now (A.edges after.now) fault) }
        ensures reads { IfErr result (λ fault. (fault ≡ faults.NoMemory → ⊥)
            → ReadsSome (sets_of self.now.nodes) (the_parents lost.now) (the_parents fresh.now)
            limit names.now (A.edges after.now) steps.old steps.new) }
    {
        let alloc = self.allocator();
        let dirty = parents_of(alloc, lost)?;
        let grown = parents_of(alloc, fresh)?;
        let back = parents_of(alloc, entered.edges)?;
        let guide = self.table();
        let change = Change {
            guide,
            lost,
            dirty: &dirty,
            fresh,
            grown: &grown,
            told: entered.oids,
            entering: entered.edges,
            back: &back,
            after,
        };
        let explored = explore_sets(alloc, &change, names, limit, steps)?;
        let Explored { nodes, entries } = explored;
        let room = Vec::with_capacity(alloc, nodes.len())?;
        let by_hash = Vec::with_capacity(alloc, nodes.len())?;
        Ok(GuideDelta {
            nodes,
            entries: Entries::of(entries),
            room,
            by_hash,
        })
    }
}
