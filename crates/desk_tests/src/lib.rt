// What `demands` tells of a faulty file and of bad arguments, byte by byte.
// It knows what a caller of `desk` knows, and has no code of its own.
#![tactic(auto)]

#[cfg(test)]
mod tests;
