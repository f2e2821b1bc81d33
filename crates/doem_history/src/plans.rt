ghost use Rattle.std.specs.Prelude.{◌≡◌};
ghost use Rattle.doem_history.specs.Plans.{steps_in};

use doem_facts::{NameFact, ObjectFact};
use lore_base::Edge;
use std::marker::Model;

// What a plan has of one kind of fact: the places of the runs that end, and the facts that come.
#[derive(Drop)]
pub(crate) struct RunPlan<F> {
    pub(crate) places: Vec<u32>,
    pub(crate) come: Vec<F>,
}

impl<F> Model for RunPlan<F> {
    ghost use Rattle.doem_history.specs.Plans.{PlannedRuns};

    ghost Value = { PlannedRuns F };

    ghost view = { λ p. record { places = p.places.items; come = p.come.items } };
}

impl<F> RunPlan<F> {
    // How many beginnings, endings and moments there are.
    pub(crate) fn steps(&self) -> usize
        ensures { result ≡ steps_in self.now }
    {
        self.come
            .len()
            .saturating_add(self.places.len())
            .saturating_add(1)
    }
}

/// What comes of a history with one moment more, worked out by `History::prepare` and put in place
/// by `History::commit`.
#[derive(Drop)]
pub struct HistoryPlan {
    pub(crate) names: RunPlan<NameFact>,
    pub(crate) objects: RunPlan<ObjectFact>,
    pub(crate) edges: RunPlan<Edge>,
    pub(crate) weight: u64,
}

impl Model for HistoryPlan {
    ghost use Rattle.doem_history.specs.Plans.{PlannedMoment};

    ghost Value = { PlannedMoment };

    ghost view = { λ p. record {
      names = p.names;
      objects = p.objects;
      edges = p.edges;
      weight = p.weight;
    } };
}
