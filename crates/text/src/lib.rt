// Texts as bytes: parts between marks, lines, decimal numbers, and a line being written.
// Nothing here allocates or knows what a text is about.
// Every call takes any bytes, and its contract says what it answers of them.
#![tactic(auto)]

pub mod cuts;
pub mod digits;
pub mod line;
pub mod numbered;
pub mod walk;
