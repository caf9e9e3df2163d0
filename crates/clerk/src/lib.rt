// The commands of a job as calls of an open month: which call a command makes, and what the month answers to it.
// It knows commands, sheet files and the month; it opens no file and prints nothing.
// Every command is answered and leaves the month as specs/ says. One that makes no call of an open month changes nothing.
#![tactic(auto)]

pub mod answers;
pub mod posting;
