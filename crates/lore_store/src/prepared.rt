ghost use Rattle.std.specs.Prelude.{◌≡◌};
ghost use Rattle.lore_store.specs.inside.Parts.{plan_with};

use crate::indexes::IndexPlan;
use dataguide::GuideDelta;
use lore_base::Delta;
use oem_graph::GraphPlan;
use oem_labels::LabelPlan;
use std::marker::Model;

/// What a change leads to, worked out by `Store::prepare` and put in place by `Store::commit`.
#[derive(Drop)]
pub struct Prepared {
    pub(crate) graph: GraphPlan,
    pub(crate) labels: LabelPlan,
    pub(crate) indexes: IndexPlan,
    // What becomes of the guide, where it doesn't stay.
    pub(crate) guide: Option<GuideDelta>,
}

// What a plan has beside that of the graph.
#[derive(Drop)]
pub(crate) struct OtherParts {
    pub(crate) labels: LabelPlan,
    pub(crate) indexes: IndexPlan,
    pub(crate) guide: Option<GuideDelta>,
}

impl Model for Prepared {
    ghost use Rattle.lore_store.specs.Stores.{PlannedDatabase};

    ghost Value = { PlannedDatabase };

    ghost view = { λ p. record {
      graph = p.graph;
      labels = p.labels;
      indexes = p.indexes;
      guide = p.guide;
    } };
}

impl Prepared {
    /// The names, objects and edges that go with the change and those that come, each list ascending:
    /// what the graph that it was prepared for and the one that it leads to differ in. Takes no
    /// memory.
    pub fn delta(&self) -> &Delta
        ensures { result.now ≡ self.now.graph.delta }
    {
        self.graph.delta()
    }
}

// The plan of these parts.
pub(crate) fn prepared_of(graph: GraphPlan, parts: OtherParts) -> Prepared
    ensures { result ≡ plan_with graph parts }
{
    let OtherParts {
        labels,
        indexes,
        guide,
    } = parts;
    Prepared {
        graph,
        labels,
        indexes,
        guide,
    }
}
