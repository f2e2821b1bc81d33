//! Laws of entries, each shown by a function that does nothing.

ghost use Rattle.index_laws.specs.EntryLaws.{LinksGainTheEdge, EntriesGainAtMostOne};
ghost use Rattle.index_laws.specs.EntryLaws.{LinksLoseTheEdge, EntriesLoseAtMostOne};
ghost use Rattle.index_laws.specs.EntryLaws.{EntriesStayWithAnotherParent};
ghost use Rattle.index_laws.specs.EntryLaws.{EntriesGoWithTheLastEdge};
ghost use Rattle.index_laws.specs.EntryLaws.{EntriesOfOthersStay, EntriesChangeTheirValue};
ghost use Rattle.index_laws.specs.EntryLaws.{EntriesAreOfTheNewValue, EntriesGoWithAComplexValue};
ghost use Rattle.index_laws.specs.EntryLaws.{LinksAreDetermined, EntriesAreDetermined};
ghost use Rattle.index_laws.specs.EntryLaws.{LinksExist, EntriesExist};

/// With one edge more the link entries are those before and that edge.
pub fn links_gain_the_edge()
    ensures { LinksGainTheEdge }
{}

/// With one edge more the value entries are those before and at most one: that of the edge's label
/// and child, where the child's value is atomic.
pub fn entries_gain_at_most_one()
    ensures { EntriesGainAtMostOne }
{}

/// With one edge less the link entries are those before without that edge.
pub fn links_lose_the_edge()
    ensures { LinksLoseTheEdge }
{}

/// With one edge less the value entries are those before, but that of the edge's label and child
/// only where another edge with the label enters the child.
pub fn entries_lose_at_most_one()
    ensures { EntriesLoseAtMostOne }
{}

/// Where another edge with the label enters the child all value entries stay.
pub fn entries_stay_with_another_parent()
    ensures { EntriesStayWithAnotherParent }
{}

/// Where no other edge with the label enters the child the entry of that label and child goes.
pub fn entries_go_with_the_last_edge()
    ensures { EntriesGoWithTheLastEdge }
{}

/// Where the value of an object changes the entries of all others stay.
pub fn entries_of_others_stay()
    ensures { EntriesOfOthersStay }
{}

/// Where an atomic value of an object gives way to another the object has entries of the same
/// labels as before, and of no value but the new one.
pub fn entries_change_their_value()
    ensures { EntriesChangeTheirValue }
{}

/// Where an object has a new value that is atomic it has an entry of that value under each label of
/// an edge that enters it, and no other.
pub fn entries_are_of_the_new_value()
    ensures { EntriesAreOfTheNewValue }
{}

/// Where an object becomes complex its entries go.
pub fn entries_go_with_a_complex_value()
    ensures { EntriesGoWithAComplexValue }
{}

/// There is one list of link entries of some edges.
pub fn links_are_determined()
    ensures { LinksAreDetermined }
{}

/// There is one list of value entries of some objects and edges.
pub fn entries_are_determined()
    ensures { EntriesAreDetermined }
{}

/// Any edges have link entries.
pub fn links_exist()
    ensures { LinksExist }
{}

/// Ascending objects and any edges have value entries.
pub fn entries_exist()
    ensures { EntriesExist }
{}
