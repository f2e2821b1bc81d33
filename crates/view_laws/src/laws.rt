//! What a change leaves as it is that doesn't concern a select whose paths all start somewhere: its
//! rows, its answer, and so rows that are kept of it.

ghost use Rattle.view_laws.specs.Laws.{UnconcernedKeepsRows, UnconcernedKeepsAnswer, FreshStays};
ghost use Rattle.view_laws.specs.Laws.{AcceptedNeedsObject};

/// A change that doesn't concern a select whose paths all start somewhere leaves its rows.
pub fn unconcerned_rows_stay()
    ensures { UnconcernedKeepsRows }
{}

/// So it leaves the answer of such a select.
pub fn unconcerned_answer_stays()
    ensures { UnconcernedKeepsAnswer }
{}

/// Rows that are fresh stay so over a change that doesn't concern their select: it is an accepted
/// one, so its paths all start somewhere.
pub fn fresh_rows_stay()
    ensures { FreshStays }
{}

/// No select is accepted over a database that has never had an object.
pub fn accepted_needs_object()
    ensures { AcceptedNeedsObject }
{}
