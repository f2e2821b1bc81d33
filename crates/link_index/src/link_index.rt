ghost use Rattle.std.specs.Prelude.{◌≡◌, [], All, Contains, IfOk, OnOk};
ghost use Rattle.lore_base.specs.Databases.{AreAscendingEdges};
ghost use Rattle.index_traits.specs.Entries.{AreLinks, AreAscendingLinks};
ghost use Rattle.sorted_list.specs.SortedLists.{IsLessWith};
ghost use Rattle.link_index.specs.Links.{HasRoom};

use crate::changes::{put_links, take_links};
use crate::heads::Head;
use crate::link_lists::sorted_links;
use crate::link_plan::LinkPlan;
use crate::link_runs::push_run;
use crate::listing::drop_childless;
use crate::records::LinkRecord;
use index_traits::Links;
use lore_base::{EdgeBuf, Label, NoMemory, Oid, Steps};
use std::alloc::Global;
use std::marker::Model;
use std::sync::ledger::Ledger;

/// The edges of a graph as records in a list for each child, in the order of label and parent.
/// Contracts see it as the list of them in the order of child, label and parent, and for how many more
/// it has room.
#[derive(Drop)]
pub struct LinkIndex {
    records: Vec<LinkRecord>,
    heads: Vec<Head>,
    // The first of the free records, which lead from one to the next.
    free: Option<usize>,
}

impl Model for LinkIndex {
    ghost use Rattle.std.specs.Prelude.{◌-◌, length, min, vec_capacity};
    ghost use Rattle.link_index.specs.Links.{RoomyLinks};
    ghost use Rattle.link_index.specs.inside.LinkEdges.{edges_of};
    ghost use Rattle.link_index.specs.inside.Records.{links_of, IsLinked};

    ghost Value = { RoomyLinks };

    ghost view = { λ i. record {
      links = edges_of (links_of i.records.items);
      room = min (vec_capacity i.records - length i.records.items)
          (vec_capacity i.heads - length i.heads.items);
    } };

    ghost invariant = { λ i. IsLinked i.heads.items i.records.items };
}

impl LinkIndex {
    /// The index of no edges. Takes no memory.
    pub fn new(alloc: Global) -> LinkIndex
        ensures { result.links ≡ [] }
    {
        LinkIndex {
            records: Vec::new(alloc),
            heads: Vec::new(alloc),
            free: None,
        }
    }

    /// Sorts the edges that go, which are kept, and those that come, which aren't; both ascend by
    /// parent, label and child. The index stays as it is.
    pub fn prepare(&self, removed: &EdgeBuf, added: &EdgeBuf) -> Result<LinkPlan, NoMemory>
        requires removed { AreAscendingEdges removed.now }
        requires kept { All (Contains self.now.links) removed.now }
        requires added { AreAscendingEdges added.now }
        requires new { All (λ edge. ¬ Contains self.now.links edge) added.now }
        ensures gone { IfOk result (λ plan. AreLinks removed.now plan.gone) }
        ensures come { IfOk result (λ plan. AreLinks added.now plan.come) }
    {
        Ok(LinkPlan {
            gone: sorted_links(removed)?,
            come: sorted_links(added)?,
        })
    }

    /// Takes the memory that `commit` needs for this plan. The index stays equal, whatever the
    /// answer.
    pub fn reserve(&mut self, plan: &LinkPlan) -> Result<(), NoMemory>
        ensures room { OnOk result (HasRoom self.new plan.now) }
        ensures same { self.new.links ≡ self.old.links }
    {
        self.records.reserve(plan.come.len())?;
        self.heads.reserve(plan.come.len())?;
        Ok(())
    }

    /// Puts in the edges that come, which aren't kept, and takes out those that go, which are. The
    /// records of the others stay where they are. Takes no memory.
    pub fn commit(&mut self, plan: LinkPlan)
        requires kept { All (Contains self.old.links) plan.gone }
        requires new { All (λ edge. ¬ Contains self.old.links edge) plan.come }
        requires room { HasRoom self.old plan }
        ensures ascend { AreAscendingLinks self.new.links }
        ensures links { IsLessWith self.old.links plan.gone plan.come self.new.links }
    {
        let LinkPlan { gone, come } = plan;
        let (gone, come) = (gone.as_slice(), come.as_slice());
        put_links(&mut self.heads, &mut self.records, &mut self.free, come);
        take_links(
            self.heads.as_mut_slice(),
            self.records.as_mut_slice(),
            &mut self.free,
            gone,
        );
        drop_childless(&mut self.heads, gone);
    }
}

impl Links for LinkIndex {
    ghost edges = { λ i. i.links };

    fn parents<L: Ledger>(
        &self,
        oid: Oid,
        label: Option<Label>,
        buf: &mut EdgeBuf,
        steps: &mut Steps<L>,
    ) -> Result<(), NoMemory> {
        let before = buf.len();
        push_run(
            self.heads.as_slice(),
            self.records.as_slice(),
            oid,
            label,
            buf,
        )?;
        steps.tick(1 + (buf.as_slice().len() - before) as u64);
        Ok(())
    }
}

#[cfg(test)]
mod tests;
