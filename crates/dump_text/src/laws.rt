//! Laws of dump texts, each shown by a function that does nothing.

ghost use Rattle.dump_text.specs.Laws.{StandsForOne, RulesTell, IsDumpOrBad};

/// A dump text stands for one database: two that have it as their dump are equal.
pub fn one_restored()
    ensures { StandsForOne }
{}

/// A dump text keeps the rules exactly where it is the dump of a database that is valid, the number
/// of its target sets left aside.
pub fn kept_rules()
    ensures { RulesTell }
{}

/// A dump text is the dump of such a database, or it is bad.
pub fn told_rules()
    ensures { IsDumpOrBad }
{}
