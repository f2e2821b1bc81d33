//! Laws of costs, each shown by a function that does nothing.

ghost use Rattle.read_costs.specs.Laws.{SpentIsWithinAll, WorkIsWithinAll, PartsAreWithinWork};

/// What is spent on objects in doubt, each paid for once, is within the cost of all of them, whatever
/// list has these.
pub fn spent_is_within_all()
    ensures { SpentIsWithinAll }
{}

/// What is within so many times the work of a change is within so many times the cost of all sets
/// that it touches and all objects that it concerns, whatever lists have these.
pub fn work_is_within_all()
    ensures { WorkIsWithinAll }
{}

/// The search for what vanishes, the guide, and one read more of each object by the edges that
/// enter it and by those that leave it are within four times the work of a change.
pub fn parts_are_within_work()
    ensures { PartsAreWithinWork }
{}
