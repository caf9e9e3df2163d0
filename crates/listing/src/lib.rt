// Listings: a ledger's lines as text, one line each under a header, values split by `|` in fewest digits.
// It knows ledgers and texts, and nothing of how the lines came about.
// A listing is written whole or not at all; text memory past it stays as it was.
#![tactic(auto)]

pub mod listing;
pub mod row;
