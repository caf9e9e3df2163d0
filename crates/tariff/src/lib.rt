// The vocabulary of the tariff: readings and sheets, charges, delivery points, parties, statements, refusals.
// Everything here is a plain value; nothing knows of files, stores or months.
#![tactic(auto)]

pub mod charge;
pub mod parties;
pub mod points;
pub mod reading;
pub mod refusal;
pub mod statement;
