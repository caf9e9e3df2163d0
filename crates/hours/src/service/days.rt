// How the days in service are found, and the hour rule that they are.
ghost use Rattle.std.specs.Prelude.{◌≡◌, ℕ, ◌+◌, ◌-◌, ◌&&◌};
ghost use Rattle.calendar.specs.Calendars.{length_in, first_in, has_day};
ghost use Rattle.records.specs.Histories.{shelf_of};
ghost use Rattle.hours.specs.Hours.{is_in_service};
ghost use Rattle.hours.specs.Services.{serves_on, admitted_by, admitted_within};

use super::ServiceDays;
use crate::rules::{HourRule, is_in_month};
use calendar::marks::{DayRule, is_marked, mask_of};
use calendar::month::Calendar;
use records::history::History;
use tariff::parties::Service;

impl HourRule for ServiceDays {
    ghost span = { λ s. s.days };

    ghost admits = { admitted_by };

    ghost within = { admitted_within };

    fn admits_hour(&self, day: u32, hour: u32) -> bool {
        is_in_month(self.days, day, hour) && is_marked(self.mask, day)
    }
}

// Nothing on record means no service.
fn serves(history: &History<Service>, point: u32, day: u32) -> bool
    ensures { result ≡ serves_on (shelf_of history.now) point day }
{
    history
        .on_record(point, day)
        .is_some_and(|service| service.in_service)
}

// The days of the month on which a point has service on record.
#[derive(Drop)]
struct Served<'a, 'm> {
    history: &'a History<'m, Service>,
    calendar: &'a Calendar,
    point: u32,
}

impl DayRule for Served<'_, '_> {
    ghost picks = { λ s d. has_day s.calendar.now d && serves_on (shelf_of s.history.now) s.point (first_in s.calendar.now + (d - 1)) };

    fn picks_day(&self, day: u32) -> bool {
        self.calendar.has_day(day)
            && serves(
                self.history,
                self.point,
                self.calendar.first_day() + (day - 1),
            )
    }
}

// Every hour of the days with service of the point on record, each day looked up once.
pub fn service_days<'a>(
    history: &'a History<'_, Service>,
    calendar: &'a Calendar,
    point: u32,
) -> ServiceDays
    ensures span { result.days ≡ length_in calendar.now }
    ensures admits { (d h : ℕ) → admitted_by result d h ≡ is_in_service (length_in calendar.now) (first_in calendar.now) (serves_on (shelf_of history.now) point) d h }
{
    let days = calendar.days();
    let served = Served {
        history,
        calendar,
        point,
    };
    ServiceDays {
        days,
        mask: mask_of(&served, days),
    }
}
