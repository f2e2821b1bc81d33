//! Laws of the choice of plans.

ghost use Rattle.planner.specs.Laws.{BeginsOnce, HasOnePlan, HasOneCount};

/// A bound select has at most one comparison that a bottom plan begins from.
pub fn one_beginning()
    ensures { BeginsOnce }
{}

/// A bound select has one list of steps of each kind.
pub fn one_list_of_steps()
    ensures { HasOnePlan }
{}

/// A bound select has one pair of counts.
pub fn one_pair_of_counts()
    ensures { HasOneCount }
{}
