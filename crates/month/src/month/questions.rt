// What an open month answers.
ghost use Rattle.std.specs.Prelude.{◌≡◌, length};
ghost use Rattle.std.specs.Result.{result_ok};
ghost use Rattle.tariff.specs.Shelves.{items};
ghost use Rattle.text.specs.Texts.{overlay};
ghost use Rattle.readings.specs.Meaning.{reading_at};
ghost use Rattle.records.specs.Books.{latest};
ghost use Rattle.demand.specs.Determinants.{system_peak_of};
ghost use Rattle.ledger.specs.Ledgers.{if_sound};
ghost use Rattle.ledger.specs.Sums.{credit_of, total_of};
ghost use Rattle.listing.specs.Listings.{listing_of, listing_answer};
ghost use Rattle.month.specs.States.{state_of};

use super::OpenMonth;
use demand::determinants::system_peak;
use demand::search::Peak;
use dues::histories::RATES_SUBJECT;
use hours::rules::HourRule;
use ledger::line::{Account, Line};
use listing::listing::write_listing;
use readings::readings::SheetStore;
use tariff::charge::Charge;
use tariff::parties::{PartyNumber, Rates, Service};
use tariff::reading::Reading;
use tariff::refusal::Refusal;
use tariff::statement::Statement;

impl<'a, S: SheetStore, H: HourRule> OpenMonth<'a, S, H> {
    // The type that was issued last.
    pub fn last(&self) -> Option<Statement>
        ensures { result ≡ (state_of S.Readings.meaning H.HourRule.admits self.now).last }
    {
        self.last
    }

    pub fn lines(&self) -> &[Line]
        ensures { result.now ≡ items (state_of S.Readings.meaning H.HourRule.admits self.now).ledger }
    {
        self.ledger.lines()
    }

    // The sum of the cents of an account's lines.
    pub fn total(&self, account: &Account) -> Result<i64, Refusal>
        ensures { result ≡ if_sound (state_of S.Readings.meaning H.HourRule.admits self.now).ledger (total_of account.now (items (state_of S.Readings.meaning H.HourRule.admits self.now).ledger)) }
    {
        self.ledger.total(account)
    }

    // The sum of the cents of a statement's lines for a charge and a transmitter.
    pub fn credit(
        &self,
        statement: Statement,
        charge: Charge,
        transmitter: PartyNumber,
    ) -> Result<i64, Refusal>
        ensures { result ≡ if_sound (state_of S.Readings.meaning H.HourRule.admits self.now).ledger (credit_of statement charge transmitter (items (state_of S.Readings.meaning H.HourRule.admits self.now).ledger)) }
    {
        self.ledger.credit(statement, charge, transmitter)
    }

    // Writes the ledger's listing to the front of `out` and answers its length. Refuses an unsound ledger, then a text memory
    // that is too short.
    pub fn write_listing(&self, out: &mut [u8]) -> Result<usize, Refusal>
        ensures value { result ≡ listing_answer (state_of S.Readings.meaning H.HourRule.admits self.now).ledger (length out.old) }
        ensures memory { out.new ≡ overlay (result_ok result) (listing_of (items (state_of S.Readings.meaning H.HourRule.admits self.now).ledger)) out.old }
    {
        write_listing(&self.ledger, out)
    }

    // The reading of an hour from 1 to 24, where there is a sheet.
    pub fn reading(&self, point: u32, day: u32, hour: u32) -> Option<Reading>
        ensures { result ≡ reading_at (state_of S.Readings.meaning H.HourRule.admits self.now).store point day hour }
    {
        self.store.reading(point, day, hour)
    }

    // The system peak of the sheets so far: quantity, day and hour. An hour without a sheet counts as no demand.
    pub fn peak(&self) -> Peak
        ensures { result ≡ system_peak_of (state_of S.Readings.meaning H.HourRule.admits self.now).setup.kinds (state_of S.Readings.meaning H.HourRule.admits self.now).setup.days (state_of S.Readings.meaning H.HourRule.admits self.now).store.sheets }
    {
        system_peak(&self.setup.points, &self.setup.calendar, &self.store)
    }

    // A point's customer on a day number, if one is on record. As with the entries, each history has a call of its own.
    pub fn customer(&self, point: u32, day_number: u32) -> Option<PartyNumber>
        ensures { result ≡ latest (items (state_of S.Readings.meaning H.HourRule.admits self.now).records.customers) point day_number }
    {
        self.histories.customers.on_record(point, day_number)
    }

    pub fn transmitter(&self, point: u32, day_number: u32) -> Option<PartyNumber>
        ensures { result ≡ latest (items (state_of S.Readings.meaning H.HourRule.admits self.now).records.transmitters) point day_number }
    {
        self.histories.transmitters.on_record(point, day_number)
    }

    pub fn service(&self, point: u32, day_number: u32) -> Option<Service>
        ensures { result ≡ latest (items (state_of S.Readings.meaning H.HourRule.admits self.now).records.service) point day_number }
    {
        self.histories.service.on_record(point, day_number)
    }

    pub fn rates(&self, day_number: u32) -> Option<Rates>
        ensures { result ≡ latest (items (state_of S.Readings.meaning H.HourRule.admits self.now).records.rates) 0 day_number }
    {
        self.histories.rates.on_record(RATES_SUBJECT, day_number)
    }
}
