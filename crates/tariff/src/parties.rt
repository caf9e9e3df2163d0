// What records and ledger lines are made of: parties, rates and service. These are plain values with any contents;
// whoever takes them tests that they are in range.
ghost use Rattle.std.specs.Prelude.{◌≡◌};
ghost use Rattle.tariff.specs.Parties.{party_in_range, rates_in_range, rate_of};

use crate::charge::Charge;

// The largest number of a customer or a transmitter.
pub const MAX_PARTY: u32 = 999_999_999;

// The highest rate, in hundred-thousandths of a dollar per kW.
pub const MAX_RATE: u32 = 10_000_000;

// A customer's or a transmitter's number.
#[derive(Clone, Copy, Default, PartialEq, Eq)]
pub struct PartyNumber {
    pub number: u32,
}

impl PartyNumber {
    pub fn is_in_range(self) -> bool
        ensures { result ≡ party_in_range self }
    {
        (1..=MAX_PARTY).contains(&self.number)
    }
}

// The rates of the three charges.
#[derive(Clone, Copy, Default)]
pub struct Rates {
    pub network: u32,
    pub line: u32,
    pub transformation: u32,
}

impl Rates {
    pub fn is_in_range(self) -> bool
        ensures { result ≡ rates_in_range self }
    {
        self.network <= MAX_RATE && self.line <= MAX_RATE && self.transformation <= MAX_RATE
    }

    pub fn rate(self, charge: Charge) -> u32
        ensures { result ≡ rate_of self charge }
    {
        match charge {
            Charge::Network => self.network,
            Charge::Line => self.line,
            Charge::Transformation => self.transformation,
        }
    }
}

// Whether a connection point is in service, for all its charges.
#[derive(Clone, Copy, Default)]
pub struct Service {
    pub in_service: bool,
}
