//! A law of what is read, shown by a function that does nothing.

ghost use Rattle.oem_reach.specs.Laws.{ReadsAreWithinTwice};

/// What is read of the objects below cuts, each once by the edges that leave it and once by those
/// that enter it, is within twice a step and one for each edge at it.
pub fn reads_are_within_twice()
    ensures { ReadsAreWithinTwice }
{}
