// Ledger lines and the accounts that they stand on: plain values with any contents, tested before they are used.
ghost use Rattle.std.specs.Prelude.{◌≡◌};
ghost use Rattle.ledger.specs.Lines.{account_of, small, sound_account, sound_reading, sound_line};

use tariff::charge::Charge;
use tariff::parties::PartyNumber;
use tariff::points::MAX_POINTS;
use tariff::statement::Statement;

// The most lines of a ledger.
pub const MAX_LINES: usize = 100_000;

// The largest amount, in cents: of what is due, and of a line either side of zero.
pub const MAX_CENTS: i64 = 9_999_999_900;

// The largest quantity, in ten-thousandths of a kW.
pub const MAX_QUANTITY: u64 = 9_999_999_900;

// What a statement adds to an account: flat, as a caller's memory and a listing have it.
// Quantity, day and hour are the determinant, or zeros for an account not on record.
#[derive(Clone, Copy)]
pub struct Line {
    pub statement: Statement,
    pub point: u32,
    pub charge: Charge,
    pub customer: PartyNumber,
    pub transmitter: PartyNumber,
    pub cents: i64,
    pub quantity: u64,
    pub day: u32,
    pub hour: u32,
}

// A charge of a point, between a customer and a transmitter.
#[derive(Clone, Copy, PartialEq, Eq)]
pub struct Account {
    pub point: u32,
    pub charge: Charge,
    pub customer: PartyNumber,
    pub transmitter: PartyNumber,
}

// Whether a line may have the amount.
pub(crate) fn is_small(cents: i64) -> bool
    ensures { result ≡ small cents }
{
    (-MAX_CENTS..=MAX_CENTS).contains(&cents)
}

pub(crate) fn is_sound_reading(quantity: u64, day: u32, hour: u32) -> bool
    ensures { result ≡ sound_reading quantity day hour }
{
    quantity <= MAX_QUANTITY && day <= 31 && hour <= 24
}

impl Account {
    pub(crate) fn is_sound(&self) -> bool
        ensures { result ≡ sound_account self.now }
    {
        let customer = self.customer.is_in_range();
        let transmitter = self.transmitter.is_in_range();
        (1..=MAX_POINTS).contains(&self.point) && customer && transmitter
    }
}

impl Line {
    // What memory for lines may be filled with. A new ledger takes any lines, and reads none that is not in use.
    pub const EMPTY: Line = Line {
        statement: Statement::P,
        point: 0,
        charge: Charge::Network,
        customer: PartyNumber { number: 0 },
        transmitter: PartyNumber { number: 0 },
        cents: 0,
        quantity: 0,
        day: 0,
        hour: 0,
    };

    pub(crate) fn account(&self) -> Account
        ensures { result ≡ account_of self.now }
    {
        Account {
            point: self.point,
            charge: self.charge,
            customer: self.customer,
            transmitter: self.transmitter,
        }
    }

    // Whether every number is in its range.
    pub(crate) fn is_sound(&self) -> bool
        ensures { result ≡ sound_line self.now }
    {
        let account = self.account().is_sound();
        let amount = is_small(self.cents);
        let reading = is_sound_reading(self.quantity, self.day, self.hour);
        account && amount && reading
    }
}
