// Days of the years 2000 to 2099. Day number 0 is 1 January 2000, a Saturday.
ghost use Rattle.std.specs.Prelude.{◌≡◌, ◌+◌, ◌-◌, ◌*◌, ◌/◌, ◌%◌, ◌<◌, ◌≤◌};
ghost use Rattle.calendar.specs.Marks.{is_month};
ghost use Rattle.calendar.specs.Dates.{is_leap, days_in, days_before_month, month_start, number_on, weekday_of};

pub const FIRST_YEAR: u32 = 2000;

pub const LAST_YEAR: u32 = 2099;

const DAYS_BEFORE_MONTH: [u32; 12] = [0, 31, 59, 90, 120, 151, 181, 212, 243, 273, 304, 334];

// One of the months 1 to 12 of the years from 2000 to 2099.
pub(crate) fn is_month(year: u32, month: u32) -> bool
    ensures { result ≡ is_month year month }
{
    (FIRST_YEAR..=LAST_YEAR).contains(&year) && (1..=12).contains(&month)
}

pub fn is_leap_year(year: u32) -> bool
    ensures { result ≡ is_leap year }
{
    year % 4 == 0 && year % 100 != 0 || year % 400 == 0
}

pub fn days_in_month(year: u32, month: u32) -> u32
    ensures { result ≡ days_in year month }
{
    match month {
        2 => 28 + u32::from(is_leap_year(year)),
        4 | 6 | 9 | 11 => 30,
        _ => 31,
    }
}

// The days of the year that lie before the month's first.
fn days_before_month(year: u32, month: u32) -> u32
    requires { (1 ≤ month) × (month ≤ 12) }
    ensures { result ≡ days_before_month year (month - 1) }
{
    let leap_day = u32::from(is_leap_year(year) && month > 2);
    DAYS_BEFORE_MONTH[(month - 1) as usize] + leap_day
}

// The day number of the month's first day.
#[tactic(auto, using(crate::proofs::Tables::years_before, crate::proofs::Tables::month_ends))]
pub(crate) fn first_day(year: u32, month: u32) -> u32
    requires { ((2000 ≤ year) × (year ≤ 2099)) × ((1 ≤ month) × (month ≤ 12)) }
    ensures { (result ≡ month_start year month) × (result + days_in year month ≤ 36525) }
{
    let years = year - FIRST_YEAR;
    365 * years + (years + 3) / 4 + days_before_month(year, month)
}

// The day number of a date; None where the years from 2000 to 2099 have no such date.
pub fn day_number(year: u32, month: u32, day: u32) -> Option<u32>
    ensures { result ≡ number_on year month day }
{
    if !is_month(year, month) || !(1..=days_in_month(year, month)).contains(&day) {
        return None;
    }
    Some(first_day(year, month) + (day - 1))
}

// 0 is Monday and 6 is Sunday.
#[tactic(auto, using(crate::proofs::Weekdays::weekday_by_sevens))]
pub fn weekday(day_number: u32) -> u32
    ensures { (result ≡ weekday_of day_number) × (result < 7) }
{
    (day_number % 7 + 5) % 7
}
