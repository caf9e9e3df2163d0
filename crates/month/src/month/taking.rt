// The calls of an open month.
ghost use Rattle.std.specs.Prelude.{◌≡◌};
ghost use Rattle.std.specs.Result.{result_map_both};
ghost use Rattle.dues.specs.Lists.{facts_in};
ghost use Rattle.month.specs.States.{state_of};
ghost use Rattle.month.specs.Answers.{store_fits, dues_to_issue, plain, Takes};

use super::OpenMonth;
use crate::calls::Call;
use crate::entries::{enter_party, enter_rates, enter_service};
use dues::histories::Histories;
use dues::list::DueList;
use dues::workings::Workings;
use hours::rules::HourRule;
use readings::readings::SheetStore;
use tariff::parties::{PartyNumber, Rates, Service};
use tariff::reading::Sheet;
use tariff::refusal::Refusal;
use tariff::statement::Statement;

impl<'a, S: SheetStore, H: HourRule> OpenMonth<'a, S, H> {
    // Whether the store is of the month's points and days.
    fn store_fits(&self) -> bool
        ensures { result ≡ store_fits (state_of S.Readings.meaning H.HourRule.admits self.now) }
    {
        let points = self.setup.points.count();
        let days = self.setup.calendar.days();
        self.store.points() == points && self.store.days() == days
    }

    // Posts a sheet. Refuses a store that does not fit, and then what the store refuses.
    pub fn post(&mut self, sheet: Sheet) -> Result<(), Refusal>
        ensures { Takes S.Readings.meaning H.HourRule.admits self.old (Call.Post sheet) (plain result) self.new }
    {
        if !self.store_fits() {
            return Err(Refusal::StoreDoesNotFit);
        }
        self.store.post(sheet)
    }

    // Enters a point's customer from a day number on. Customers and transmitters are entered alike, by `enter_party`, and
    // the call's name says in which history: a mark beside one call would say no more.
    pub fn enter_customer(
        &mut self,
        point: u32,
        from_day: u32,
        party: PartyNumber,
    ) -> Result<(), Refusal>
        ensures { Takes S.Readings.meaning H.HourRule.admits self.old (Call.Customer point from_day party) (plain result) self.new }
    {
        enter_party(
            &self.setup.points,
            &mut self.histories.customers,
            point,
            from_day,
            party,
        )
    }

    pub fn enter_transmitter(
        &mut self,
        point: u32,
        from_day: u32,
        party: PartyNumber,
    ) -> Result<(), Refusal>
        ensures { Takes S.Readings.meaning H.HourRule.admits self.old (Call.Transmitter point from_day party) (plain result) self.new }
    {
        enter_party(
            &self.setup.points,
            &mut self.histories.transmitters,
            point,
            from_day,
            party,
        )
    }

    // Enters whether a connection point is in service from a day number on.
    pub fn enter_service(
        &mut self,
        point: u32,
        from_day: u32,
        service: Service,
    ) -> Result<(), Refusal>
        ensures { Takes S.Readings.meaning H.HourRule.admits self.old (Call.Service point from_day service) (plain result) self.new }
    {
        enter_service(
            &self.setup.points,
            &mut self.histories.service,
            point,
            from_day,
            service,
        )
    }

    // Enters the rates from a day number on.
    pub fn enter_rates(&mut self, from_day: u32, rates: Rates) -> Result<(), Refusal>
        ensures { Takes S.Readings.meaning H.HourRule.admits self.old (Call.Rates from_day rates) (plain result) self.new }
    {
        enter_rates(&mut self.histories.rates, from_day, rates)
    }

    // What is due, if a statement may be issued now: one that is in turn, of a store that fits, over a sound ledger and
    // sound histories, with no sheet missing and all on record.
    #[tactic(auto, using(crate::proofs::Issues::ledger_refused, crate::proofs::Issues::dues_reached))]
    fn dues_to_issue(&self, statement: Statement) -> Result<DueList, Refusal>
        ensures { result_map_both facts_in (λ e. e) result ≡ dues_to_issue (state_of S.Readings.meaning H.HourRule.admits self.now) statement }
    {
        if !statement.is_in_turn(self.last) {
            return Err(Refusal::OutOfTurn);
        }
        if !self.store_fits() {
            return Err(Refusal::StoreDoesNotFit);
        }
        self.ledger.check()?;
        let workings = Workings {
            points: &self.setup.points,
            calendar: &self.setup.calendar,
            readings: &self.store,
            peak_period: &self.peak_period,
            histories: Histories {
                customers: &self.histories.customers,
                transmitters: &self.histories.transmitters,
                service: &self.histories.service,
                rates: &self.histories.rates,
            },
        };
        workings.work_out()
    }

    // Issues a statement of what is due, and answers how many lines it wrote.
    pub fn issue(&mut self, statement: Statement) -> Result<usize, Refusal>
        ensures { Takes S.Readings.meaning H.HourRule.admits self.old (Call.Issue statement) result self.new }
    {
        let dues = self.dues_to_issue(statement)?;
        let count = self.ledger.issue(statement, dues.as_slice())?;
        self.last = Some(statement);
        Ok(count)
    }
}
