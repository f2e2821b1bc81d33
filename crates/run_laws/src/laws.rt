//! Laws of the meaning of scripts, each shown by a function that does nothing.

ghost use Rattle.run_laws.specs.Laws.{HasOneReading, HasSomeReading, HasOneRun, HasSomeRun};

/// A script has one list of parts.
pub fn one_reading()
    ensures { HasOneReading }
{}

/// Each script has a list of parts: what stands behind its last chunk is blank, or it isn't.
pub fn some_reading()
    ensures { HasSomeReading }
{}

/// Parts have one run: it prints the same bytes, refuses as many and leaves the same state.
pub fn one_run()
    ensures { HasOneRun }
{}

/// From each state that can stand parts have a run, to such a state.
pub fn some_run()
    ensures { HasSomeRun }
{}
