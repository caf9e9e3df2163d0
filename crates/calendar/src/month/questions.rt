// What a month's calendar answers.
ghost use Rattle.std.specs.Prelude.{◌≡◌, ℕ, suc, ◌+◌, ◌-◌, ◌/◌, ◌%◌, ◌^◌, ◌<◌, ◌≤◌, if◌then◌else◌, Some, None, MatchResult};
ghost use Rattle.calendar.specs.Marks.{refusal_of, FitsMeansNoMark};
ghost use Rattle.calendar.specs.Dates.{days_in};
ghost use Rattle.calendar.specs.Calendars.{Holds, length_in, first_in, last_in, has_day, is_working, is_summer, working_in};

use super::Calendar;
use crate::dates;
use crate::marks::is_marked;
use tariff::refusal::Refusal;

// Bit i is set where the i-th day after a Monday is a day from Monday to Friday.
const WEEKDAYS: u64 = 0b11111_0011111_0011111_0011111_0011111_0011111;

impl Calendar {
    // Tests 1, then 2. That a mask fits in the month says just that no other day is marked.
    #[tactic(auto, using(crate::proofs::Marked::fits_means_no_mark))]
    pub fn new(year: u32, month: u32, holidays: u32, summer: u32) -> Result<Calendar, Refusal>
        ensures result { MatchResult result (λ c. (refusal_of year month holidays summer ≡ None) × Holds c year month holidays summer) (λ e. refusal_of year month holidays summer ≡ Some e) }
        ensures marks { FitsMeansNoMark holidays (days_in year month) × FitsMeansNoMark summer (days_in year month) }
    {
        if !dates::is_month(year, month) {
            return Err(Refusal::NoSuchMonth);
        }
        let days = dates::days_in_month(year, month);
        if holidays >> days != 0 || summer >> days != 0 {
            return Err(Refusal::MarkOutsideMonth);
        }
        Ok(Calendar {
            year,
            month,
            holidays,
            summer,
        })
    }

    pub fn days(&self) -> u32
        ensures { (result ≡ length_in self.now) × ((28 ≤ result) × (result ≤ 31)) }
    {
        dates::days_in_month(self.year, self.month)
    }

    // Whether the month has the day.
    pub fn has_day(&self, day: u32) -> bool
        ensures { result ≡ has_day self.now day }
    {
        (1..=self.days()).contains(&day)
    }

    // The day number of the first day.
    pub fn first_day(&self) -> u32
        ensures { (result ≡ first_in self.now) × (result + length_in self.now ≤ 36525) }
    {
        dates::first_day(self.year, self.month)
    }

    // The day number of the last day.
    pub fn last_day(&self) -> u32
        ensures { (result ≡ last_in self.now) × (result ≤ 36524) }
    {
        self.first_day() + self.days() - 1
    }

    // A day from Monday to Friday that is not marked as a holiday.
    pub fn is_working_day(&self, day: u32) -> bool
        ensures { result ≡ is_working self.now day }
    {
        self.has_day(day)
            && dates::weekday(self.first_day() + (day - 1)) < 5
            && !is_marked(self.holidays, day)
    }

    pub fn is_summer(&self, day: u32) -> bool
        ensures { result ≡ is_summer self.now day }
    {
        self.has_day(day) && is_marked(self.summer, day)
    }

    // Bit 0 is set if the first day is a working day, and so on.
    #[tactic(auto, using(crate::proofs::Working::mask_bits))]
    fn working_mask(&self) -> u64
        ensures { (result < 2 ^ length_in self.now) × ((k : ℕ) → k < length_in self.now → result / 2 ^ k % 2 ≡ (if is_working self.now (suc k) then 1 else 0)) }
    {
        let weekdays = WEEKDAYS >> dates::weekday(self.first_day());
        let month = (1 << self.days()) - 1;
        weekdays & !u64::from(self.holidays) & month
    }

    // How many working days the month has.
    pub fn working_days(&self) -> u32
        ensures { (result ≡ working_in self.now) × (result ≤ length_in self.now) }
    {
        self.working_mask().count_ones()
    }
}
