ghost use Rattle.std.specs.Prelude.{◌≡◌, IfOk};
ghost use Rattle.lore_base.specs.Databases.{AreAscendingEdges};
ghost use Rattle.edge_lists.specs.Views.{edges_of};
ghost use Rattle.edge_layers.specs.Lists.{AreLists};
ghost use Rattle.edge_layers.specs.Overlays.{overlaid};

use crate::chains::Chains;
use crate::edge_runs::run_of;
use crate::entering::{child_chains, entering_run};
use crate::layers::{push_entering, push_leaving};
use edge_lists::{EdgeRecord, ObjectRecord};
use index_traits::{Adjacent, Links};
use lore_base::{EdgeBuf, Label, NoMemory, Oid, Steps};
use slab::Slab;
use std::alloc::Global;
use std::marker::Model;
use std::sync::ledger::Ledger;

/// The edges that there are once changes are made, without a copy of those that stay: the lists of
/// before, which it borrows, those edges that are lost, and those that are fresh.
#[derive(Drop)]
pub struct Overlay<'a> {
    objects: &'a [ObjectRecord],
    records: &'a Slab<EdgeRecord>,
    lost: EdgeBuf,
    fresh: EdgeBuf,
    // Where those of each child stand among them.
    lost_in: Chains,
    fresh_in: Chains,
}

impl<'a> Model for Overlay<'a> {
    ghost use Rattle.edge_layers.specs.Overlays.{OverlayEdges};
    ghost use Rattle.edge_layers.specs.Layers.{layered};
    ghost use Rattle.edge_layers.specs.inside.Overlaid.{IsOverlaid};
    ghost use Rattle.edge_lists.specs.Views.{edges_of};

    ghost Value = { OverlayEdges };

    ghost view = { λ o. record {
      edges = layered (edges_of o.records.now) o.lost o.fresh;
      lost = o.lost;
      fresh = o.fresh;
    } };

    ghost invariant = { λ o. IsOverlaid o.objects.now o.records.now o.lost o.fresh o.lost_in o.fresh_in };
}

impl<'a> Overlay<'a> {
    /// Puts the fresh edges in place of the lost ones, over these lists.
    pub fn new(
        alloc: Global,
        objects: &'a [ObjectRecord],
        records: &'a Slab<EdgeRecord>,
        lost: EdgeBuf,
        fresh: EdgeBuf,
    ) -> Result<Overlay<'a>, NoMemory>
        requires lists { AreLists objects.now records.now }
        requires lost { AreAscendingEdges lost }
        requires fresh { AreAscendingEdges fresh }
        ensures { IfOk result (λ overlay. overlay ≡ overlaid (edges_of records.now) lost fresh) }
    {
        let lost_in = child_chains(alloc, lost.as_slice())?;
        let fresh_in = child_chains(alloc, fresh.as_slice())?;
        Ok(Overlay {
            objects,
            records,
            lost,
            fresh,
            lost_in,
            fresh_in,
        })
    }

    /// The edges of before that aren't among those then, in ascending order.
    pub fn lost(&self) -> &EdgeBuf
        ensures { result.now ≡ self.now.lost }
    {
        &self.lost
    }

    /// The edges then that weren't there before, in ascending order.
    pub fn fresh(&self) -> &EdgeBuf
        ensures { result.now ≡ self.now.fresh }
    {
        &self.fresh
    }
}

impl<'a> Adjacent for Overlay<'a> {
    ghost edges = { λ o. o.edges };

    fn out_edges<L: Ledger>(
        &self,
        oid: Oid,
        buf: &mut EdgeBuf,
        steps: &mut Steps<L>,
    ) -> Result<(), NoMemory> {
        let before = buf.len();
        let (lost, fresh) = (self.lost.as_slice(), self.fresh.as_slice());
        let new = run_of(fresh, oid);
        push_leaving(self.objects, self.records, lost, fresh, new, oid, buf)?;
        steps.tick(1 + (buf.as_slice().len() - before) as u64);
        Ok(())
    }
}

impl<'a> Links for Overlay<'a> {
    ghost edges = { λ o. o.edges };

    fn parents<L: Ledger>(
        &self,
        oid: Oid,
        label: Option<Label>,
        buf: &mut EdgeBuf,
        steps: &mut Steps<L>,
    ) -> Result<(), NoMemory> {
        let before = buf.len();
        let alloc = buf.allocator();
        let lost = entering_run(alloc, self.lost.as_slice(), &self.lost_in, oid)?;
        let fresh = entering_run(alloc, self.fresh.as_slice(), &self.fresh_in, oid)?;
        let (lost, fresh) = (lost.as_slice(), fresh.as_slice());
        push_entering(self.objects, self.records, lost, fresh, oid, label, buf)?;
        steps.tick(1 + (buf.as_slice().len() - before) as u64);
        Ok(())
    }
}
