// The calendar of one month, with the days that are marked as holidays and as summer days.
ghost use Rattle.std.specs.Prelude.{◌^◌, ◌<◌, ◌≤◌};
ghost use Rattle.calendar.specs.Dates.{days_in};

mod questions;

// Bit 0 of a mask of marks is the month's first day. On a summer day daylight saving holds.
#[derive(Clone, Copy)]
pub struct Calendar {
    year: u32,
    month: u32,
    holidays: u32,
    summer: u32,
    ghost ranged: { ((2000 ≤ year) × (year ≤ 2099)) × ((1 ≤ month) × (month ≤ 12)) },
    ghost fitted: { (holidays < 2 ^ days_in year month) × (summer < 2 ^ days_in year month) },
}
