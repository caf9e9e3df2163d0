// What `demands` is asked for.
ghost use Rattle.std.specs.Prelude.{◌≡◌};
ghost use Rattle.std.specs.Result.{result_map_both};
ghost use Rattle.tariff.specs.Points.{kinds_of};
ghost use Rattle.desk.specs.Arguments.{unless_hyphen, days_asked, points_asked, calendar_asked, month_asked, numbers_in, month_in};

use calendar::month::Calendar;
use job::days::days_of;
use job::numbers::whole;
use job::point_list::{PointFault, point_list};
use std::fmt;
use tariff::points::PointList;
use tariff::refusal::Refusal;

// A month and its delivery points.
#[derive(Clone, Copy)]
pub struct Asked {
    pub calendar: Calendar,
    pub points: PointList,
}

// Why the arguments make no month.
#[derive(Clone, Copy)]
pub enum BadArgument {
    Year,
    Month,
    Holidays,
    Summer,
    Calendar(Refusal),
    Point(PointFault),
}

// A hyphen stands for an empty list.
fn unless_hyphen(text: &[u8]) -> &[u8]
    ensures { result.now ≡ unless_hyphen text.now }
{
    match text {
        [b'-'] => &[],
        _ => text,
    }
}

// Days as 1,5,22-24, or a hyphen for none; an empty text is no list.
fn marked_days(text: &[u8]) -> Option<u32>
    ensures { result ≡ days_asked text.now }
{
    if text.is_empty() {
        return None;
    }
    days_of(unless_hyphen(text))
}

// Points as N,N,CLT, or a hyphen for none.
fn points_of(text: &[u8]) -> Result<PointList, BadArgument>
    ensures { result_map_both kinds_of (λ e. e) result ≡ points_asked text.now }
{
    match text {
        [b'-'] => Ok(PointList::new()),
        _ => point_list(text).map_err(BadArgument::Point),
    }
}

fn calendar_of(
    year: &[u8],
    month: &[u8],
    holidays: &[u8],
    summer: &[u8],
) -> Result<Calendar, BadArgument>
    ensures { result_map_both numbers_in (λ e. e) result ≡ calendar_asked year.now month.now holidays.now summer.now }
{
    let year = whole(year).ok_or(BadArgument::Year)?;
    let month = whole(month).ok_or(BadArgument::Month)?;
    let holiday_mask = marked_days(holidays).ok_or(BadArgument::Holidays)?;
    let summer_mask = marked_days(summer).ok_or(BadArgument::Summer)?;
    Calendar::new(year, month, holiday_mask, summer_mask).map_err(BadArgument::Calendar)
}

// The month that the arguments make: days as 1,5,22-24, points as N,N,CLT, or a hyphen for none of either.
pub fn month_asked_for(
    year: &[u8],
    month: &[u8],
    holidays: &[u8],
    summer: &[u8],
    points: &[u8],
) -> Result<Asked, BadArgument>
    ensures { result_map_both month_in (λ e. e) result ≡ month_asked year.now month.now holidays.now summer.now points.now }
{
    let calendar = calendar_of(year, month, holidays, summer)?;
    let points = points_of(points)?;
    Ok(Asked { calendar, points })
}

impl fmt::Display for BadArgument {
    fn fmt<W: fmt::Write>(&self, f: &mut fmt::Formatter<W>) -> fmt::Result {
        match *self {
            BadArgument::Year => f.write_str("YEAR: not a whole number"),
            BadArgument::Month => f.write_str("MONTH: not a whole number"),
            BadArgument::Holidays => f.write_str("HOLIDAYS: not days as 1,5,22-24 or -"),
            BadArgument::Summer => f.write_str("SUMMER: not days as 1,5,22-24 or -"),
            BadArgument::Calendar(refusal) => {
                let number = refusal.number();
                write!(f, "refused {number}: {refusal}")
            }
            BadArgument::Point(
                PointFault {
                    number: point,
                    refusal,
                },
            ) => {
                let number = refusal.number();
                write!(f, "POINTS: point {point}: refused {number}: {refusal}")
            }
        }
    }
}
