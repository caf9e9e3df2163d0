// The work of the program `demands`, and how it tells a refusal.
// It may know of every library but those of a month. What is printed is for people; what is decided, and what a store
// then holds, is proved.
#![tactic(auto)]

pub mod arguments;
pub mod demands;
pub mod posting;
mod words;
