ghost use Rattle.std.specs.Prelude.{◌≡◌, ◌↔◌, ℕ, ◌+◌, ◌<◌, ◌≤◌, ◌^◌, List, length};
ghost use Rattle.std.specs.Prelude.{All, AllPairs, Contains, IfOk, OnOk};
ghost use Rattle.std.specs.List.{sum_by};
ghost use Rattle.read_costs.specs.ReadCosts.{in_reads, out_reads};
ghost use Rattle.one_index.specs.Types.{Oid as TheOid, Label as TheLabel, Edge as TheEdge};
ghost use Rattle.one_index.specs.Blocks.{named_graph_of, IsSound, IsOrderedBlock, AreBlocksOf};
ghost use Rattle.one_index.specs.Blocks.{IsMember, HasEdge, cost_of};
ghost use Rattle.one_index.specs.inside.Places.{IsAt};
ghost use Rattle.one_index.specs.inside.Linked.{IsEdgeAt};
ghost use Rattle.one_index.specs.inside.Parted.{AreSameEdges, IsParted};
ghost use Rattle.block_rounds.specs.Partitions.{IsNumbered, IsInOrder};

use crate::blocks::{Block, Blocks};
use crate::filling::blocks_from;
use crate::kinds::kinds_of;
use crate::linking::{links_of, members_of};
use crate::rows::read_rows;
use block_haste::refined;
use block_rounds::{Partition, gathered};
use index_traits::{Adjacent, Links};
use lore_base::{Names, NoMemory, Oid, OidBuf, Steps};
use std::alloc::Global;
use std::sync::ledger::Ledger;

// The partition of the objects, told by their places. The edges that enter each object are read
// once.
fn partition_of<K: Links, L: Ledger>(
    alloc: Global,
    links: &K,
    objects: &[Oid],
    names: &Names,
    steps: &mut Steps<L>,
) -> Result<Partition, NoMemory>
    requires { AllPairs (λ a b. a.0 < b.0) objects.now }
    ensures parted { IfOk result (λ partition. (edges : List TheEdge)
        → AreSameEdges (K.edges links.now) edges
        → IsSound (named_graph_of names.now objects.now edges)
        → IsParted (named_graph_of names.now objects.now edges) partition.numbers.items) }
    ensures numbered { IfOk result (λ partition.
        IsNumbered (length objects.now) partition.numbers.items partition.heads.items) }
    ensures order { IfOk result (λ partition.
        IsInOrder partition.numbers.items partition.heads.items) }
    ensures steps { OnOk result ((edges : List TheEdge) → AreSameEdges (K.edges links.now) edges
        → steps.new ≤ steps.old + sum_by (in_reads edges) objects.now) }
{
    let rows = read_rows(alloc, links, objects, steps)?;
    let named = names.objects()?;
    let kinds = kinds_of(alloc, objects, named.as_slice())?;
    let partition = refined(alloc, rows.as_slice(), kinds.as_slice())?;
    Ok(partition)
}

// The blocks of the objects, numbered by these numbers below a count. The edges that leave each
// object are read once.
fn blocks_by<A: Adjacent, L: Ledger>(
    alloc: Global,
    graph: &A,
    objects: &[Oid],
    numbers: &[usize],
    count: usize,
    steps: &mut Steps<L>,
) -> Result<Vec<Block>, NoMemory>
    requires ascend { AllPairs (λ a b. a.0 < b.0) objects.now }
    requires every { length numbers.now ≡ length objects.now }
    requires numbered { All (λ number. number < count) numbers.now }
    requires few { count ≤ 2 ^ 32 }
    ensures every { IfOk result (λ blocks. length blocks.items ≡ count) }
    ensures members { IfOk result (λ blocks. (number : ℕ) (oid : TheOid)
        → IsMember blocks.items number oid ↔ IsAt objects.now numbers.now oid number) }
    ensures edges { IfOk result (λ blocks. (from : ℕ) (label : TheLabel) (to : ℕ)
        → HasEdge blocks.items from label to
        ↔ IsEdgeAt (A.edges graph.now) objects.now numbers.now from label to) }
    ensures ordered { IfOk result (λ blocks. All IsOrderedBlock blocks.items) }
    ensures steps { OnOk result (steps.new ≡ steps.old
        + sum_by (out_reads (A.edges graph.now)) objects.now) }
{
    let pairs = members_of(alloc, objects, numbers)?;
    let members = gathered(alloc, count, pairs.as_slice())?;
    let links = links_of(alloc, graph, objects, numbers, steps)?;
    let edges = gathered(alloc, count, links.as_slice())?;
    let blocks = blocks_from(alloc, members.as_slice(), edges.as_slice())?;
    Ok(blocks)
}

// The objects in a list of their own.
fn copied(alloc: Global, objects: &[Oid]) -> Result<OidBuf, NoMemory>
    ensures { IfOk result (λ copy. copy ≡ objects.now) }
{
    let mut copy = OidBuf::with_capacity(alloc, objects.len())?;
    copy.append(objects)?;
    Ok(copy)
}

impl Blocks {
    /// The blocks of the graph with these names, objects and edges. Objects are in one block
    /// exactly where they belong together, and blocks stand in the order of their least objects.
    ///
    /// The objects are the live ones, ascending, fewer than 2 to the 32nd; names and edges have
    /// none but these at their ends. Both `graph` and `links` have the edges, and each object's
    /// are read once each way. Where memory is refused, nothing is promised of `steps`.
    pub fn build<A: Adjacent, K: Links, L: Ledger>(
        alloc: Global,
        graph: &A,
        links: &K,
        objects: &OidBuf,
        names: &Names,
        steps: &mut Steps<L>,
    ) -> Result<Blocks, NoMemory>
        requires sound { IsSound (named_graph_of names.now objects.now (A.edges graph.now)) }
        requires same { (edge : TheEdge)
            → Contains (K.edges links.now) edge ↔ Contains (A.edges graph.now) edge }
        requires few { length objects.now < 2 ^ 32 }
        ensures blocks { IfOk result
            (AreBlocksOf (named_graph_of names.now objects.now (A.edges graph.now))) }
        ensures few { IfOk result (λ blocks. length blocks ≤ length objects.now) }
        ensures steps { OnOk result (steps.new ≤ steps.old
            + sum_by (cost_of (A.edges graph.now)) objects.now) }
    {
        let oids = objects.as_slice();
        let partition = partition_of(alloc, links, oids, names, steps)?;
        let Partition { numbers, heads } = partition;
        let blocks = blocks_by(alloc, graph, oids, numbers.as_slice(), heads.len(), steps)?;
        let own = copied(alloc, oids)?;
        Ok(Blocks {
            objects: own,
            numbers,
            blocks,
        })
    }
}
