// Dated histories over memory that the caller lends: who and what is on record for a subject on a day.
// It knows of the tariff's vocabulary only, and of an item no more than whether it is in its range.
// Entries stand by subject, then from-day, no two sharing both; memory may hold anything, and is checked where that matters.
#![tactic(auto)]

pub mod dated;
pub mod entries;
pub mod history;
pub mod range;
