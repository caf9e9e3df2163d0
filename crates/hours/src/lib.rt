// Which hours of a month count: the trait of hour rules, the peak period, the whole month and the service of a point.
// It knows of the calendar and of the histories. A rule answers the same each time, and no outside the month.
#![tactic(auto)]

pub mod rules;
pub mod service;
