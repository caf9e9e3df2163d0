// The four histories of a month: who and what is on record.
ghost use Rattle.std.specs.Prelude.{◌≡◌, if◌then◌else◌, Ok, Err};
ghost use Rattle.tariff.specs.declared.refusal.Refusal.TheVariants.{Unsound};
ghost use Rattle.tariff.specs.Shelves.{items};
ghost use Rattle.records.specs.Books.{latest};
ghost use Rattle.readings.specs.Missing.{first_of};
ghost use Rattle.dues.specs.Records.{sound_records};
ghost use Rattle.dues.specs.Facts.{no_parties};
ghost use Rattle.dues.specs.Workings.{records_of};

use records::history::History;
use tariff::parties::{PartyNumber, Rates, Service};
use tariff::points::MAX_POINTS;
use tariff::refusal::Refusal;

// The subject that the rates stand under; the subjects of the other histories are points.
pub const RATES_SUBJECT: u32 = 0;

// The histories that a month keeps: each a part of the caller's memory.
#[derive(Drop)]
pub struct MonthHistories<'m> {
    pub customers: History<'m, PartyNumber>,
    pub transmitters: History<'m, PartyNumber>,
    pub service: History<'m, Service>,
    pub rates: History<'m, Rates>,
}

// Four histories that are only read, wherever each of them is kept.
#[derive(Clone, Copy)]
pub struct Histories<'a, 'm> {
    pub customers: &'a History<'m, PartyNumber>,
    pub transmitters: &'a History<'m, PartyNumber>,
    pub service: &'a History<'m, Service>,
    pub rates: &'a History<'m, Rates>,
}

impl Histories<'_, '_> {
    // Refuses histories of which one is not sound.
    #[tactic(auto, using(crate::proofs::Outcome::passed_here, crate::proofs::Outcome::refused_here))]
    pub fn check(&self) -> Result<(), Refusal>
        ensures { result ≡ (if sound_records (records_of self.now) then Ok tt else Err Unsound) }
    {
        self.customers.check(1, MAX_POINTS)?;
        self.transmitters.check(1, MAX_POINTS)?;
        self.service.check(1, MAX_POINTS)?;
        self.rates.check(RATES_SUBJECT, RATES_SUBJECT)
    }

    // Whether a point lacks its customer or its transmitter on a day.
    fn missing_parties(&self, point: u32, day: u32) -> Option<Refusal>
        ensures { result ≡ no_parties (latest (items (records_of self.now).customers)) (latest (items (records_of self.now).transmitters)) day point }
    {
        let customer = self.customers.on_record(point, day);
        let transmitter = self.transmitters.on_record(point, day);
        if customer.is_some() && transmitter.is_some() {
            None
        } else {
            Some(Refusal::NothingOnRecord { point })
        }
    }

    // The first of the points 1 to `points` that lacks one of them.
    pub(crate) fn first_unrecorded(&self, points: u32, day: u32) -> Option<Refusal>
        ensures { result ≡ first_of (no_parties (latest (items (records_of self.now).customers)) (latest (items (records_of self.now).transmitters)) day) points }
    {
        (0..points).find_map(|k| self.missing_parties(k + 1, day))
    }
}
