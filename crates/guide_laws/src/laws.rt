//! Laws of target sets and guides, each shown by a function that does nothing.

ghost use Rattle.guide_laws.specs.Laws.{
  TargetSetsExist,
  FitsAreCounted,
  FitsAreTold,
  GuidesFitOrPass,
  FittingPassesNone,
  OneLimitIsPassed,
  GuidesExist,
  OrderedSetsExist,
  OrderedGuidesExist,
};

/// The sets that label paths lead to can be listed.
pub fn target_sets_exist()
    ensures { TargetSetsExist }
{}

/// A guide fits exactly where the list of all sets that label paths lead to keeps the limits.
pub fn fits_are_counted()
    ensures { FitsAreCounted }
{}

/// A guide fits, or it doesn't.
pub fn fits_are_told()
    ensures { FitsAreTold }
{}

/// A guide fits, or the first set that passes a limit passes the one on nodes or the one on cells.
pub fn guides_fit_or_pass()
    ensures { GuidesFitOrPass }
{}

/// A guide that fits passes neither limit.
pub fn fitting_passes_none()
    ensures { FittingPassesNone }
{}

/// The first set that passes a limit passes one of them.
pub fn one_limit_is_passed()
    ensures { OneLimitIsPassed }
{}

/// A guide stands for each database.
pub fn guides_exist()
    ensures { GuidesExist }
{}

/// The sets that label paths lead to can be listed in the order of their least paths.
pub fn ordered_sets_exist()
    ensures { OrderedSetsExist }
{}

/// A guide whose nodes stand in that order stands for each database.
pub fn ordered_guides_exist()
    ensures { OrderedGuidesExist }
{}
