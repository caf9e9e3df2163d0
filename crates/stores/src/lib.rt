// Two stores of sheets, each over memory that it is lent: a full table and rows.
// It knows the tariff's vocabulary and what readings mean, and nothing of months or files.
// To a caller both stores mean the same; they differ in what the lent memory holds.
#![tactic(auto)]

mod extent;
pub mod full_table;
mod room;
pub mod row_store;
