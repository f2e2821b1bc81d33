ghost use Rattle.std.specs.Prelude.{◌≡◌, length};

use edge_layers::RunStarts;
use lore_base::{Delta, Names, OidBuf};
use std::marker::Model;

/// What becomes of a graph with a change, worked out by `Graph::prepare` and put in place by
/// `Graph::commit`: the whole table of names, the objects that vanish, what goes and what comes, and
/// the next number.
#[derive(Drop)]
pub struct GraphPlan {
    pub(crate) names: Names,
    pub(crate) dead: OidBuf,
    pub(crate) delta: Delta,
    pub(crate) next: u64,
    // Where the records of the edges that go may lie.
    pub(crate) likely: Vec<usize>,
    // The places of the edges that come in the order in which they are put into in lists, and room
    // for the keys of their records.
    pub(crate) by_child: Vec<usize>,
    pub(crate) keys: Vec<usize>,
    // Where those of each object begin among the edges that come.
    pub(crate) starts: RunStarts,
}

impl Model for GraphPlan {
    ghost use Rattle.std.specs.Prelude.{vec_capacity};
    ghost use Rattle.oem_graph.specs.Plans.{PlannedGraph};
    ghost use Rattle.oem_graph.specs.inside.Planned.{IsPlan};

    ghost Value = { PlannedGraph };

    ghost view = { λ p. record {
      names = p.names;
      dead = p.dead;
      delta = p.delta;
      next = p.next;
    } };

    ghost invariant = { λ p. IsPlan p.dead p.delta.objects_come p.delta.edges_gone p.delta.edges_come
        p.by_child.items p.keys.items (vec_capacity p.keys) };
}

impl GraphPlan {
    /// The table of names then.
    pub fn names(&self) -> &Names
        ensures { result.now ≡ self.now.names }
    {
        &self.names
    }

    /// What goes with the change and what comes, each list ascending: of a plan that `Graph::prepare`
    /// made, what its graph and the one then differ in. Takes no memory.
    pub fn delta(&self) -> &Delta
        ensures { result.now ≡ self.now.delta }
    {
        &self.delta
    }

    /// The number of names then.
    pub fn names_len(&self) -> usize
        ensures { result ≡ length self.now.names }
    {
        self.names.len()
    }
}
