// Sheet files: a reader of their lines, and a writer of one line.
// Knows the tariff's sheets and the layout of texts, and nothing of months, stores or sums.
// Promises that each line gives its sheet or the first fault in it, and that a written line reads back as the same sheet.
#![tactic(auto)]

pub mod faults;
pub mod file;
pub(crate) mod line;
pub(crate) mod value;
pub mod writer;
