use edge_layers::{RunStarts, push_leaving};
use edge_lists::{EdgeRecord, ObjectRecord};
use graph_changes::{is_dead, value_in, value_of};
use index_traits::{Adjacent, ValueOf};
use lore_base::{Edge, EdgeBuf, NoMemory, Oid, Steps, Value};
use slab::Slab;
use std::marker::Model;
use std::sync::ledger::Ledger;

/// The objects and the edges of a graph as they are once a plan is in place, without a copy of
/// them. Contracts see the two lists of them.
#[derive(Drop)]
pub struct GraphThen<'a> {
    pub(crate) objects: &'a [ObjectRecord],
    pub(crate) records: &'a Slab<EdgeRecord>,
    pub(crate) dead: &'a [Oid],
    pub(crate) given: &'a [(Oid, Value)],
    pub(crate) gone: &'a [Edge],
    pub(crate) come: &'a [Edge],
    pub(crate) starts: &'a RunStarts,
}

impl<'a> Model for GraphThen<'a> {
    ghost use Rattle.edge_lists.specs.Objects.{object_of};
    ghost use Rattle.edge_lists.specs.Views.{edges_of};
    ghost use Rattle.oem_graph.specs.Plans.{GraphLists};
    ghost use Rattle.graph_changes.specs.Puts.{with_objects, put_edges};
    ghost use Rattle.edge_layers.specs.Layers.{staying};
    ghost use Rattle.graph_changes.specs.Left.{not_dead};
    ghost use Rattle.oem_graph.specs.inside.Planned.{IsRead};
    ghost use Rattle.std.specs.Prelude.{map};

    ghost Value = { GraphLists };

    ghost view = { λ t. record {
      objects = with_objects (not_dead t.dead.now (map object_of t.objects.now)) t.given.now;
      edges = put_edges (staying t.gone.now (edges_of t.records.now)) t.come.now;
    } };

    ghost invariant = { λ t. IsRead t.objects.now t.records.now t.dead.now t.given.now t.gone.now t.come.now };
}

impl<'a> Adjacent for GraphThen<'a> {
    ghost edges = { λ t. t.edges };

    fn out_edges<L: Ledger>(
        &self,
        oid: Oid,
        buf: &mut EdgeBuf,
        steps: &mut Steps<L>,
    ) -> Result<(), NoMemory> {
        let before = buf.len();
        let new = self.starts.run_in(self.come, oid);
        let (gone, come) = (self.gone, self.come);
        push_leaving(self.objects, self.records, gone, come, new, oid, buf)?;
        steps.tick(1 + (buf.as_slice().len() - before) as u64);
        Ok(())
    }
}

impl<'a> ValueOf for GraphThen<'a> {
    ghost objects = { λ t. t.objects };

    fn value_of(&self, oid: Oid) -> Option<&Value> {
        if let Some(value) = value_in(self.given, oid) {
            return Some(value);
        }
        if is_dead(self.dead, oid) {
            return None;
        }
        value_of(self.objects, oid)
    }
}
