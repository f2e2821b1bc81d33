//! Links to the nearest item: what holds of lists whose records lead to one another by keys.
#![tactic(auto)]
