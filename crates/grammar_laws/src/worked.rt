ghost use Rattle.grammar_laws.specs.WorkedLoads.{WorkedLoads};
ghost use Rattle.grammar_laws.specs.WorkedUpdates.{WorkedUpdates};
ghost use Rattle.grammar_laws.specs.WorkedPaths.{WorkedPaths};
ghost use Rattle.grammar_laws.specs.WorkedConditions.{WorkedConditions};
ghost use Rattle.grammar_laws.specs.WorkedSettings.{WorkedSettings};
ghost use Rattle.grammar_laws.specs.WorkedFlags.{WorkedFlags};
ghost use Rattle.grammar_laws.specs.WorkedHistory.{WorkedHistory};

/// Literals as they load objects: these statements have these tokens and these trees.
pub fn worked_loads()
    ensures { WorkedLoads }
{}

/// Names and updates: these statements have these tokens and these trees.
pub fn worked_updates()
    ensures { WorkedUpdates }
{}

/// Selects by their paths and variables: these statements have these tokens and these trees.
pub fn worked_paths()
    ensures { WorkedPaths }
{}

/// Selects by their conditions: these statements have these tokens and these trees.
pub fn worked_conditions()
    ensures { WorkedConditions }
{}

/// Statements about the whole database: these statements have these tokens and these trees.
pub fn worked_settings()
    ensures { WorkedSettings }
{}

/// Flags: these statements have these tokens and these trees.
pub fn worked_flags()
    ensures { WorkedFlags }
{}

/// History, moments and kept selects: these statements have these tokens and these trees.
pub fn worked_history()
    ensures { WorkedHistory }
{}
