// The ledger: the lines that statements have written, what they add up to, and the lines that a new statement writes.
// It knows points, charges, parties and statement types, and takes what is due as given; it knows nothing of readings, records or turns.
// An accepted issue brings every account of its dues to exactly what it is due and moves no other; a refused one changes nothing.
#![tactic(auto)]

mod choices;
pub mod due;
pub mod ledger;
pub mod line;
mod new_lines;
mod sound_lines;
