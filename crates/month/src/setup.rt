// A month that is being set up: its calendar, and the points that it settles.
ghost use Rattle.std.specs.Prelude.{◌≡◌, [], length, Some, None, MatchResult};
ghost use Rattle.tariff.specs.Points.{kinds_of, kind_declared, declared, with_point};
ghost use Rattle.calendar.specs.Calendars.{Holds};
ghost use Rattle.calendar.specs.Marks.{refusal_of};
ghost use Rattle.ledger.specs.Ledgers.{shelf_of as ledger_shelf};
ghost use Rattle.dues.specs.Workings.{records_in};
ghost use Rattle.month.specs.States.{state_of, setup_of, opened};

use crate::month::OpenMonth;
use calendar::month::Calendar;
use dues::histories::MonthHistories;
use hours::rules::HourRule;
use ledger::ledger::Ledger;
use readings::readings::SheetStore;
use tariff::points::{Declaration, PointList};
use tariff::refusal::Refusal;

#[derive(Drop)]
pub struct MonthSetup {
    pub(crate) calendar: Calendar,
    pub(crate) points: PointList,
}

impl MonthSetup {
    // A month without points. Refuses a month that there is not, then a mark on a day that it lacks.
    pub fn new(year: u32, month: u32, holidays: u32, summer: u32) -> Result<MonthSetup, Refusal>
        ensures { MatchResult result (λ u. (refusal_of year month holidays summer ≡ None) × Holds u.calendar year month holidays summer × (kinds_of u.points ≡ [])) (λ e. refusal_of year month holidays summer ≡ Some e) }
    {
        let calendar = Calendar::new(year, month, holidays, summer)?;
        Ok(MonthSetup {
            calendar,
            points: PointList::new(),
        })
    }

    // Takes one more point and answers its number. Refuses a 401st point before a kind that there is not.
    pub fn declare_point(&mut self, point: Declaration) -> Result<u32, Refusal>
        ensures answer { result ≡ declared (length (kinds_of self.old.points)) (kind_declared point) }
        ensures points { kinds_of self.new.points ≡ with_point result (kind_declared point) (kinds_of self.old.points) }
        ensures calendar { self.new.calendar ≡ self.old.calendar }
    {
        self.points.declare(point)
    }

    // Opens the month over what the caller brings, whatever it holds: the call that meets it tests it.
    pub fn open<'a, S: SheetStore, H: HourRule>(
        self,
        store: S,
        peak_period: H,
        histories: MonthHistories<'a>,
        ledger: Ledger<'a>,
    ) -> OpenMonth<'a, S, H>
        ensures { state_of S.Readings.meaning H.HourRule.admits result ≡ opened (setup_of self (H.HourRule.admits peak_period)) (S.Readings.meaning store) (records_in histories.entry) (ledger_shelf ledger.entry) }
    {
        OpenMonth::begin(self, store, peak_period, histories, ledger)
    }
}
