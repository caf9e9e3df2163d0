// The rules by which hours count.
ghost use Rattle.std.specs.Prelude.{◌≡◌, ℕ, Bool, true};
ghost use Rattle.calendar.specs.Calendars.{length_in};
ghost use Rattle.hours.specs.Hours.{Inside, in_peak, in_month, peak_within, month_within};

use calendar::month::Calendar;

// Yes or no for each day and hour of the month, hour h being the clock hour that ends at h o'clock Eastern Standard Time.
pub trait HourRule {
    // How many days the month has.
    ghost span: { Self → ℕ };

    ghost admits: { Self → ℕ → ℕ → Bool };

    fn admits_hour(&self, day: u32, hour: u32) -> bool
        ensures { result ≡ admits self.now day hour };

    // No hour outside the month is admitted.
    ghost within: { (s : Self) (d h : ℕ) → admits s d h ≡ true → Inside (span s) d h };
}

// Whether day and hour are in a month of so many days.
pub(crate) fn is_in_month(days: u32, day: u32, hour: u32) -> bool
    ensures { result ≡ in_month days day hour }
{
    (1..=days).contains(&day) && (1..=24).contains(&hour)
}

// The hours 8 to 19 of working days, and 7 to 18 of those with a summer mark.
#[derive(Clone, Copy)]
pub struct PeakPeriod<'a> {
    pub calendar: &'a Calendar,
}

impl HourRule for PeakPeriod<'_> {
    ghost span = { λ p. length_in p.calendar.now };

    ghost admits = { λ p d h. in_peak p.calendar.now d h };

    ghost within = { λ p d h. peak_within p.calendar.now d h };

    fn admits_hour(&self, day: u32, hour: u32) -> bool {
        if !self.calendar.is_working_day(day) {
            return false;
        }
        let hours = if self.calendar.is_summer(day) {
            7..=18
        } else {
            8..=19
        };
        hours.contains(&hour)
    }
}

// Every hour of the month.
#[derive(Clone, Copy)]
pub struct WholeMonth<'a> {
    pub calendar: &'a Calendar,
}

impl HourRule for WholeMonth<'_> {
    ghost span = { λ p. length_in p.calendar.now };

    ghost admits = { λ p d h. in_month (length_in p.calendar.now) d h };

    ghost within = { λ p d h. month_within (length_in p.calendar.now) d h };

    fn admits_hour(&self, day: u32, hour: u32) -> bool {
        is_in_month(self.calendar.days(), day, hour)
    }
}
