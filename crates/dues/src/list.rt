// The dues of a month, in memory of their own.
use fixed_list::list::FixedList;
use ledger::due::Due;

// A point has at most two charges, so that there is room for those of 400 points.
pub type DueList = FixedList<Due, 800>;
