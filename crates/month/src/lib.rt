// One calendar month: set up, open for calls, closed. It puts stores, histories, dues and the ledger together.
// Every call answers and leaves what specs/ says of the month as a value, a refusal changes nothing,
// and the laws of a month hold of every run of calls.
#![tactic(auto)]

pub mod calls;
pub mod closed;
mod entries;
pub mod month;
pub mod setup;
pub mod worked;
