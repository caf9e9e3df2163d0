// The second calculation's own calendar. Days are counted on from Saturday, 1 January 2000, which is day number 0.
use crate::plain::{PlainMonth, Refused, RuleKind, number_of};
use std::array;

// Yes or no for each hour of 31 days; the days that a month lacks have no hour.
pub type HourTable = [[bool; 24]; 31];

const NO_HOURS: HourTable = [[false; 24]; 31];

const FRIDAY: u32 = 5;

const SATURDAY: u32 = 6;

const SUNDAY: u32 = 7;

// From 2000 to 2099 every fourth year is a leap year.
pub fn days_in(year: u32, month: u32) -> u32 {
    match month {
        2 if year % 4 == 0 => 29,
        2 => 28,
        4 | 6 | 9 | 11 => 30,
        _ => 31,
    }
}

// The days of the first so many months of a year.
fn days_of_months(year: u32, months: u32) -> u32 {
    (1..=months).fold(0, |days: u32, month| {
        days.saturating_add(days_in(year, month))
    })
}

pub fn first_day(year: u32, month: u32) -> u32 {
    (2000..year)
        .fold(0, |days: u32, earlier| {
            days.saturating_add(days_of_months(earlier, 12))
        })
        .saturating_add(days_of_months(year, month.saturating_sub(1)))
}

// 1 is Monday and 7 is Sunday.
fn next_weekday(weekday: u32) -> u32 {
    if weekday >= SUNDAY { 1 } else { weekday + 1 }
}

fn weekday_after(weekday: u32, days: u32) -> u32 {
    (0..days).fold(weekday, |weekday, _| next_weekday(weekday))
}

fn weekday_of(day_number: u32) -> u32 {
    weekday_after(SATURDAY, day_number)
}

// Bit 0 stands for day 1.
fn is_marked(mask: u32, day: u32) -> bool {
    (1..=32).contains(&day) && mask >> (day - 1) & 1 == 1
}

// Making a month: 1 for a year or month out of range, 2 for a mark on a day that the month lacks.
pub fn judge_month(month: PlainMonth) -> Result<(), Refused> {
    if !(2000..=2099).contains(&month.year) || !(1..=12).contains(&month.month) {
        return Err(Refused::of(1));
    }
    let days = days_in(month.year, month.month);
    let is_marked_beyond = (1..=32).any(|day| {
        day > days && (is_marked(month.holidays, day) || is_marked(month.summer, day))
    });
    if is_marked_beyond {
        return Err(Refused::of(2));
    }
    Ok(())
}

// The hours of each day of a month, worked out by the day.
pub(crate) fn table_of<F: Fn(u32) -> [bool; 24]>(month: PlainMonth, hours_of: F) -> HourTable
    requires { F.IsAlwaysCallable hours_of }
{
    let mut table = NO_HOURS;
    for (row, day) in table.iter_mut().zip(1..=days_in(month.year, month.month)) {
        *row = hours_of(day);
    }
    table
}

// The hours 8 to 19, or 7 to 18 where daylight saving holds.
fn working_hours(summer: bool) -> [bool; 24] {
    let (first, last) = if summer { (7, 18) } else { (8, 19) };
    array::from_fn(|i| (first..=last).contains(&number_of(i)))
}

// Monday to Friday without a holiday mark.
fn peak_period(month: PlainMonth) -> HourTable {
    let first = weekday_of(first_day(month.year, month.month));
    table_of(month, |day| {
        let weekday = weekday_after(first, day.saturating_sub(1));
        if weekday <= FRIDAY && !is_marked(month.holidays, day) {
            working_hours(is_marked(month.summer, day))
        } else {
            [false; 24]
        }
    })
}

pub fn whole_month(month: PlainMonth) -> HourTable {
    table_of(month, |_| [true; 24])
}

// The hours of a day whose number and the day's together are a multiple of 3.
fn thirds_of(day: u32) -> [bool; 24] {
    array::from_fn(|i| number_of(i).saturating_add(day % 3) % 3 == 0)
}

fn every_third_hour(month: PlainMonth) -> HourTable {
    table_of(month, thirds_of)
}

// The hours that stand for the peak period.
pub fn admitted_hours(rule: RuleKind, month: PlainMonth) -> HourTable {
    match rule {
        RuleKind::PeakPeriod => peak_period(month),
        RuleKind::WholeMonth => whole_month(month),
        RuleKind::EveryThirdHour => every_third_hour(month),
    }
}
