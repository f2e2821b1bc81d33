ghost use Rattle.path_expr.specs.Machines.{IsAcceptedByStepping};

/// Stepping from the starts through a word, label by label, comes to the end exactly where the word
/// is accepted.
pub fn stepping_accepts()
    ensures { IsAcceptedByStepping }
{}
