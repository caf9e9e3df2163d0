// What a user writes: the lines of a job, their calls, whole numbers, dates, lists of days and of delivery points, as text.
// It knows of the tariff's vocabulary, of dates and of texts, and of nothing that a call does.
// Every text is answered: a value that is no number or list is malformed, one that a rule refuses is handed on.
#![tactic(auto)]

pub mod command;
pub mod days;
pub mod lines;
pub mod numbers;
pub mod parse;
pub mod point_list;
pub(crate) mod values;
