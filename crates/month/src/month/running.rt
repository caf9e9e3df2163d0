// Runs of calls.
ghost use Rattle.std.specs.Prelude.{◌≡◌};
ghost use Rattle.month.specs.States.{state_of};
ghost use Rattle.month.specs.Answers.{Takes};
ghost use Rattle.month.specs.Journals.{after, answered};
ghost use Rattle.month.specs.Laws.{Bare, MonthLaws};

use super::OpenMonth;
use crate::calls::{Call, JournalEntry};
use hours::rules::HourRule;
use readings::readings::SheetStore;
use tariff::refusal::Refusal;

impl<'a, S: SheetStore, H: HourRule> OpenMonth<'a, S, H> {
    // Takes any call, and answers how many lines it wrote, which for any call but an issue is none.
    pub fn take(&mut self, call: Call) -> Result<usize, Refusal>
        ensures { Takes S.Readings.meaning H.HourRule.admits self.old call result self.new }
    {
        match call {
            Call::Post(sheet) => self.post(sheet).map(|()| 0),
            Call::Customer {
                point,
                from_day,
                party,
            } => self.enter_customer(point, from_day, party).map(|()| 0),
            Call::Transmitter {
                point,
                from_day,
                party,
            } => self.enter_transmitter(point, from_day, party).map(|()| 0),
            Call::Service {
                point,
                from_day,
                service,
            } => self.enter_service(point, from_day, service).map(|()| 0),
            Call::Rates { from_day, rates } => self.enter_rates(from_day, rates).map(|()| 0),
            Call::Issue(statement) => self.issue(statement),
        }
    }

    // Takes every call of a journal in order, and fills in its outcome. The laws of a month hold of every run that starts
    // bare: totals are due, credits meet debits, and the order of calls does not matter.
    pub fn run(&mut self, journal: &mut [JournalEntry])
        ensures state { state_of S.Readings.meaning H.HourRule.admits self.new ≡ after (state_of S.Readings.meaning H.HourRule.admits self.old) journal.old }
        ensures outcomes { journal.new ≡ answered (state_of S.Readings.meaning H.HourRule.admits self.old) journal.old }
        ensures laws { Bare (state_of S.Readings.meaning H.HourRule.admits self.old) → MonthLaws (state_of S.Readings.meaning H.HourRule.admits self.old) journal.new }
    {
        for noted in journal.iter_mut() {
            noted.outcome = Some(self.take(noted.call));
        }
    }
}
