ghost use Rattle.std.specs.Prelude.{◌≡◌, ◌++◌, IfOk, IfErr};
ghost use Rattle.lore_base.specs.Databases.{AreAscendingEdges};
ghost use Rattle.lore_base.specs.PathOrder.{AreInPathOrder};
ghost use Rattle.lore_base.specs.GuideLimits.{FitsGuide};
ghost use Rattle.dataguide.specs.Types.faults;
ghost use Rattle.dataguide.specs.Touched.{ReadsTouched, ReadsSome, ReadsWithin, parents_of};
ghost use Rattle.dataguide.specs.Changes.{TellsEntering};
ghost use Rattle.dataguide.specs.Guides.{StandsFor, sets_of};
ghost use Rattle.dataguide.specs.Deltas.{guide_then, nodes_then, IsReady, StoodFor};
ghost use Rattle.dataguide.specs.GuideCauses.{GuideCause};

use dataguide::{Entered, Guide, GuideDelta, GuideFault};
use index_traits::Adjacent;
use lore_base::{Edge, Names, NoMemory, Steps};
use std::sync::ledger::Ledger;

/// Plans the guide of the graph after a change (Goldman and Widom 1997, incremental maintenance),
/// where this one stood before it, and these edges, each list in ascending order, were lost and are
/// fresh. Of some objects, whichever, it is told which edges enter them afterwards.
///
/// The plan is of the guide that would be built, and it is refused where that is: `Nodes` and
/// `Cells` exactly where the first set that passes a limit passes this one. Read are the sets that
/// no node had or that a lost edge leaves, each once, and of one that extends a node's that none of the
/// edges leaves perhaps only the other members, and nothing of a node's where it is told of the
/// children of its lost edges: no more than those that no node had or that any of the edges leaves,
/// also where the answer is a refusal.
pub fn plan<A: Adjacent, L: Ledger>(
    guide: &Guide,
    after: &A,
    lost: &[Edge],
    fresh: &[Edge],
    entered: &Entered,
    names: &Names,
    limit: u32,
    steps: &mut Steps<L>,
) -> Result<GuideDelta, GuideFault>
    requires stood { StoodFor guide.now lost.now fresh.now (A.edges after.now) }
    requires ascend { AreAscendingEdges fresh.now }
    requires lost_ascend { AreAscendingEdges lost.now }
    requires tells { TellsEntering (A.edges after.now) entered.now.oids.now entered.now.edges.now }
    ensures guide { IfOk result (λ delta.
        StandsFor (guide_then guide.now.nodes delta) names.now (A.edges after.now)) }
    ensures order { IfOk result (λ delta. AreInPathOrder names.now (A.edges after.now)
        (sets_of (nodes_then guide.now.nodes delta.nodes))) }
    ensures fits { IfOk result (λ _. FitsGuide limit names.now (A.edges after.now)) }
    ensures ready { IfOk result (λ delta. IsReady guide.now.nodes delta) }
    ensures cause { IfErr result
        (λ fault. GuideCause limit names.now (A.edges after.now) fault) }
    ensures steps { IfOk result (λ delta. ReadsTouched (sets_of guide.now.nodes)
        (parents_of lost.now) (parents_of fresh.now) (A.edges after.now)
        (sets_of (nodes_then guide.now.nodes delta.nodes)) steps.old steps.new) }
    ensures reads { IfErr result (λ fault. (fault ≡ faults.NoMemory → ⊥)
        → ReadsSome (sets_of guide.now.nodes) (parents_of lost.now) (parents_of fresh.now)
        limit names.now (A.edges after.now) steps.old steps.new) }
    ensures within { IfOk result (λ _. ReadsWithin (sets_of guide.now.nodes)
        (parents_of (lost.now ++ fresh.now)) names.now (A.edges after.now) steps.old steps.new) }
    ensures refused { IfErr result (λ fault. (fault ≡ faults.NoMemory → ⊥)
        → ReadsWithin (sets_of guide.now.nodes) (parents_of (lost.now ++ fresh.now)) names.now
        (A.edges after.now) steps.old steps.new) }
{
    guide.plan(after, lost, fresh, entered, names, limit, steps)
}

/// Takes the memory that the guide needs to become the planned one.
pub fn reserve(guide: &mut Guide, delta: &GuideDelta) -> Result<(), NoMemory>
    ensures { guide.new ≡ guide.old }
{
    guide.reserve(delta)
}

/// The guide becomes the planned one. Takes no memory.
pub fn commit(guide: &mut Guide, delta: GuideDelta)
    requires { IsReady guide.old.nodes delta }
    ensures { guide.new ≡ guide_then guide.old.nodes delta }
{
    guide.commit(delta)
}
