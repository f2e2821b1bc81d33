//! Laws of changes, each shown by a function that does nothing.

ghost use Rattle.oem_changes.specs.Laws.{ChangesLeaveOne, SameChangesLeaveOne};
ghost use Rattle.oem_changes.specs.Laws.{ChangesLeaveSome, ChangesKeepRooted, ChangesKeepValid};
ghost use Rattle.oem_changes.specs.Laws.{ChangesGrow};

/// Changes leave one graph, in whichever order and how often they list edges.
pub fn changes_leave_one()
    ensures one { ChangesLeaveOne }
    ensures same { SameChangesLeaveOne }
{}

/// Changes that fit a well-formed graph leave some graph.
pub fn changes_leave_some()
    ensures { ChangesLeaveSome }
{}

/// Changes that fit a well-formed graph leave one that is well-formed and has no object that no
/// name walks to.
pub fn changes_keep_rooted()
    ensures { ChangesKeepRooted }
{}

/// Changes that fit a valid database, and keep to its limits, leave a valid one.
pub fn changes_keep_valid()
    ensures { ChangesKeepValid }
{}

/// Changes that only make objects, all of them reached, and add edges leave a graph with just
/// these more.
pub fn changes_grow()
    ensures { ChangesGrow }
{}
