//! Laws of the weight of histories, and of what moments differ in.

ghost use Rattle.doem_history.specs.Laws.{HaveOneWeight, HaveSomeWeight, AddsWhatComes};
ghost use Rattle.doem_history.specs.Laws.{HaveOneDelta, HaveSomeDelta};

/// Moments have one weight.
pub fn one_weight()
    ensures { HaveOneWeight }
{}

/// Moments in order, no more than a history may have, have a weight.
pub fn some_weight()
    ensures { HaveSomeWeight }
{}

/// A moment more adds exactly what the facts weigh that come with it: nothing for those that go,
/// and nothing for those that go on.
pub fn a_moment_adds_what_comes()
    ensures { AddsWhatComes }
{}

/// What two moments differ in is one delta.
pub fn one_delta()
    ensures { HaveOneDelta }
{}

/// Two moments in order have a delta.
pub fn some_delta()
    ensures { HaveSomeDelta }
{}
