ghost use Rattle.set_walk.specs.inside.SetWalks.{HasState, told_in};

use graph_search::Marks;
use path_expr::States;

// The states of an automaton as the marks of a node.
#[derive(Clone, Copy)]
pub(crate) struct StateMarks(pub(crate) States);

impl Marks for StateMarks {
    ghost has = { HasState };

    ghost told = { λ set. told_in set.0 };

    fn none() -> StateMarks {
        StateMarks(States::none())
    }

    fn is_empty(self) -> bool {
        self.0.is_empty()
    }

    fn join(self, other: StateMarks) -> StateMarks {
        StateMarks(self.0.join(other.0))
    }

    fn without(self, other: StateMarks) -> StateMarks {
        StateMarks(self.0.without(other.0))
    }
}
