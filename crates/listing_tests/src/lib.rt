// Listings of ledgers at the limits of their numbers, byte by byte.
// It knows what a caller of `listing` knows, and has no code of its own.
#![tactic(auto)]

#[cfg(test)]
mod tests;
