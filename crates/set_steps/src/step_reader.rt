ghost use Rattle.std.specs.Prelude.{◌≡◌, ◌+◌, IfOk, IfSome, OnOk};
ghost use Rattle.lore_base.specs.Databases.{AreAscendingEdges};
ghost use Rattle.set_steps.specs.SetSteps.{AreSteps, reads_of};
ghost use Rattle.set_steps.specs.inside.Arcs.{leaving, AreStepsBy};

use crate::arcs::{ArcBuf, list_arcs, put_in_order};
use crate::bucket_sets::sets_of;
use crate::buckets::buckets_of;
use crate::edge_runs::run_of;
use crate::groups::group_arcs;
use index_traits::Adjacent;
use lore_base::{Edge, EdgeBuf, Label, NoMemory, Steps};
use oem_set::OidSet;
use std::alloc::Global;
use std::sync::ledger::Ledger;

/// Memory in which the edges that leave one set after another are read.
#[derive(Drop)]
pub struct StepReader {
    edges: EdgeBuf,
    arcs: ArcBuf,
}

// Puts the edges that leave the members of the set into the buffer, in place of what was there.
fn read_edges<A: Adjacent, L: Ledger>(
    graph: &A,
    set: &OidSet,
    edges: &mut EdgeBuf,
    steps: &mut Steps<L>,
) -> Result<(), NoMemory>
    ensures edges { OnOk result (edges.new ≡ leaving (A.edges graph.now) set.now) }
    ensures steps { OnOk result (steps.new ≡ steps.old + reads_of (A.edges graph.now) set.now) }
{
    edges.cut(0);
    'oids: for oid in set.as_slice() {
        graph.out_edges(*oid, edges, steps)?;
    }
    Ok(())
}

// Puts those of the edges that leave the members of the set into the buffer, in place of what was
// there.
fn list_edges(listed: &[Edge], set: &OidSet, edges: &mut EdgeBuf) -> Result<(), NoMemory>
    requires { AreAscendingEdges listed.now }
    ensures { OnOk result (edges.new ≡ leaving listed.now set.now) }
{
    edges.cut(0);
    'oids: for oid in set.as_slice() {
        edges.append(run_of(listed, *oid))?;
    }
    Ok(())
}

// For how many edges of one object a label is worth a bucket.
const WORTH_BUCKET: usize = 16;

// Whether the edges leave one object, and may have too many labels for their number. They come object
// by object, so the first and the last tell. No clause speaks of it, since both ways lead to the same
// steps.
fn are_in_order(edges: &[Edge]) -> bool {
    match (edges.first(), edges.last()) {
        (Some(first), Some(last)) => {
            let labels = last.label.0.saturating_sub(first.label.0) as usize;
            first.parent.0 == last.parent.0 && labels >= edges.len() / WORTH_BUCKET
        }
        _ => true,
    }
}

// The steps by edges, label by label. None where these are in order, or have too many labels.
fn steps_by_buckets(alloc: Global, edges: &[Edge]) -> Result<Option<Vec<(Label, OidSet)>>, NoMemory>
    ensures { IfOk result (λ found. IfSome found (λ row. AreStepsBy edges.now row.items)) }
{
    if are_in_order(edges) {
        return Ok(None);
    }
    let Some(buckets) = buckets_of(alloc, edges)? else {
        return Ok(None);
    };
    let row = sets_of(alloc, buckets.as_slice())?;
    Ok(Some(row))
}

impl StepReader {
    /// Takes no memory yet.
    pub fn new(alloc: Global) -> StepReader {
        StepReader {
            edges: EdgeBuf::new(alloc),
            arcs: ArcBuf::new(alloc),
        }
    }

    // The steps by the edges that were read. Those of one object ascend by label and child.
    fn group(&mut self) -> Result<Vec<(Label, OidSet)>, NoMemory>
        ensures { IfOk result (λ row. AreStepsBy self.old.edges row.items) }
    {
        let alloc = self.arcs.allocator();
        if let Some(found) = steps_by_buckets(alloc, self.edges.as_slice())? {
            return Ok(found);
        }
        list_arcs(self.edges.as_slice(), &mut self.arcs)?;
        put_in_order(&mut self.arcs)?;
        let row = group_arcs(alloc, self.arcs.as_slice())?;
        Ok(row)
    }

    /// Reads the steps of the set: each label that an edge has which leaves a member, once, with the
    /// set of all objects that such edges lead to. Labels ascend by their numbers.
    ///
    /// A step is counted for each member and one for each edge that leaves it.
    pub fn read<A: Adjacent, L: Ledger>(
        &mut self,
        graph: &A,
        set: &OidSet,
        steps: &mut Steps<L>,
    ) -> Result<Vec<(Label, OidSet)>, NoMemory>
        ensures row { IfOk result (λ row. AreSteps (A.edges graph.now) set.now row.items) }
        ensures reads { OnOk result
            (steps.new ≡ steps.old + reads_of (A.edges graph.now) set.now) }
    {
        read_edges(graph, set, &mut self.edges, steps)?;
        let row = self.group()?;
        Ok(row)
    }

    /// Takes the steps of the set, as `read` has them, from listed edges, which ascend by parent,
    /// label and child. No read is counted.
    pub fn take(&mut self, listed: &[Edge], set: &OidSet) -> Result<Vec<(Label, OidSet)>, NoMemory>
        requires { AreAscendingEdges listed.now }
        ensures { IfOk result (λ row. AreSteps listed.now set.now row.items) }
    {
        list_edges(listed, set, &mut self.edges)?;
        let row = self.group()?;
        Ok(row)
    }
}
