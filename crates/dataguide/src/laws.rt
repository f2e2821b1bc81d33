//! Laws of target sets and guides.

ghost use Rattle.dataguide.specs.GuideLaws.{LongerWordsStep, HasAlikeGuides, HasOneOrderedGuide};
ghost use Rattle.dataguide.specs.GuideLaws.{NodesAreCounted, ReachedEdgesDecide};
ghost use Rattle.dataguide.specs.GuideLaws.{VanishedEdgesLeadNowhere};
ghost use Rattle.dataguide.specs.GuideLaws.{ReadsAreWithin, SomeReadsAreWithin};

/// The target set of a longer word is the step of the shorter word's, by the last label.
pub fn longer_words_step()
    ensures { LongerWordsStep }
{}

/// Two guides of one database are the same but for the numbers of their nodes.
pub fn guides_are_alike()
    ensures { HasAlikeGuides }
{}

/// Two guides of one database whose nodes stand in the order of their least label paths are equal.
pub fn one_ordered_guide()
    ensures { HasOneOrderedGuide }
{}

/// A database fits a guide exactly where the nodes of its guide keep the limits.
pub fn nodes_are_counted()
    ensures { NodesAreCounted }
{}

/// Edge lists that agree on what leaves the objects that names walk to lead to the same target
/// sets, and so have the same guides.
pub fn reached_edges_decide()
    ensures { ReachedEdgesDecide }
{}

/// The edges once changes are made, and those that are left when what no name walks to has
/// vanished, lead to the same target sets.
pub fn vanished_edges_lead_nowhere()
    ensures { VanishedEdgesLeadNowhere }
{}

/// What is read for a guide is within the reads of the touched sets: of those with members that lost
/// edges leave, and so of those with members that any edges leave that came or went.
pub fn reads_are_within()
    ensures { ReadsAreWithin }
{}

/// So is what is read where the guide is refused.
pub fn some_reads_are_within()
    ensures { SomeReadsAreWithin }
{}
