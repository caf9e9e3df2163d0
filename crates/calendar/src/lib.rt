// The calendar of a month: its days, their numbers and weekdays, the marks on them, its working days.
// It knows of the tariff's vocabulary only. Days of a month are counted from 1; day numbers from 1 January 2000, day 0.
#![tactic(auto)]

pub mod dates;
pub mod marks;
pub mod month;
