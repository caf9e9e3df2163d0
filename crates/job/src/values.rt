// One value of a line.
ghost use Rattle.std.specs.Prelude.{◌≡◌, map};
ghost use Rattle.std.specs.Option.{option_map};
ghost use Rattle.calendar.specs.Dates.{is_date};
ghost use Rattle.job.specs.Numbers.{whole_of};
ghost use Rattle.job.specs.Commands.{party_of};
ghost use Rattle.job.specs.Values.{look_up, word_of, statement_of, charge_of, credit_of, store_of, service_of, day_of, date_of, from_of};

use crate::command::{StoreKind, Word};
use crate::numbers::whole;
use calendar::dates;
use tariff::charge::Charge;
use tariff::parties::{PartyNumber, Service};
use tariff::statement::Statement;

// What a table has for a text: the value of the first entry with that name.
#[tactic(auto, unfolding(crate::specs::Values::is_word))]
fn look_up<T: Copy>(table: &[(&[u8], T)], text: &[u8]) -> Option<T>
    ensures { result ≡ look_up (map (λ e. (e.0.now, e.1)) table.now) text.now }
{
    for (name, value) in table {
        if text == *name {
            return Some(*value);
        }
    }
    None
}

const WORDS: [(&[u8], Word); 15] = [
    (b"month", Word::Month),
    (b"point", Word::Point),
    (b"open", Word::Open),
    (b"close", Word::Close),
    (b"customer", Word::Customer),
    (b"transmitter", Word::Transmitter),
    (b"service", Word::Service),
    (b"rates", Word::Rates),
    (b"sheet", Word::Sheet),
    (b"sheets", Word::Sheets),
    (b"issue", Word::Issue),
    (b"credit", Word::Credit),
    (b"total", Word::Total),
    (b"peak", Word::Peak),
    (b"listing", Word::Listing),
];

// The name of a call.
pub(crate) fn word_of(text: &[u8]) -> Option<Word>
    ensures { result ≡ word_of text.now }
{
    look_up(&WORDS, text)
}

const STATEMENTS: [(&[u8], Statement); 9] = [
    (b"P", Statement::P),
    (b"F", Statement::F),
    (b"R1", Statement::R1),
    (b"R2", Statement::R2),
    (b"R3", Statement::R3),
    (b"R4", Statement::R4),
    (b"R5", Statement::R5),
    (b"R6", Statement::R6),
    (b"RF", Statement::RF),
];

pub(crate) fn statement_of(text: &[u8]) -> Option<Statement>
    ensures { result ≡ statement_of text.now }
{
    look_up(&STATEMENTS, text)
}

const BILLED: [(&[u8], Charge); 3] = [
    (b"650", Charge::Network),
    (b"651", Charge::Line),
    (b"652", Charge::Transformation),
];

// A charge by the number under which it is billed.
pub(crate) fn charge_of(text: &[u8]) -> Option<Charge>
    ensures { result ≡ charge_of text.now }
{
    look_up(&BILLED, text)
}

const CREDITED: [(&[u8], Charge); 3] = [
    (b"600", Charge::Network),
    (b"601", Charge::Line),
    (b"602", Charge::Transformation),
];

// A charge by the number under which it is credited.
pub(crate) fn credit_of(text: &[u8]) -> Option<Charge>
    ensures { result ≡ credit_of text.now }
{
    look_up(&CREDITED, text)
}

const STORES: [(&[u8], StoreKind); 2] = [(b"table", StoreKind::Table), (b"rows", StoreKind::Rows)];

pub(crate) fn store_of(text: &[u8]) -> Option<StoreKind>
    ensures { result ≡ store_of text.now }
{
    look_up(&STORES, text)
}

const SERVICES: [(&[u8], Service); 2] = [
    (b"Y", Service { in_service: true }),
    (b"N", Service { in_service: false }),
];

// Y for in service, N for not.
pub(crate) fn service_of(text: &[u8]) -> Option<Service>
    ensures { result ≡ service_of text.now }
{
    look_up(&SERVICES, text)
}

pub(crate) fn party_of(text: &[u8]) -> Option<PartyNumber>
    ensures { result ≡ option_map party_of (whole_of text.now) }
{
    whole(text).map(|number| PartyNumber { number })
}

// A date as it is written, whether or not there is such a day.
#[derive(Clone, Copy)]
pub(crate) struct Date {
    year: u32,
    month: u32,
    day: u32,
}

impl Date {
    // Whether the month is one of the twelve and has the day.
    fn exists(self) -> bool
        ensures { result ≡ is_date self.year self.month self.day }
    {
        (1..=12).contains(&self.month)
            && (1..=dates::days_in_month(self.year, self.month)).contains(&self.day)
    }

    // The day number. A date after 2099 has the largest of 32 bits, which is out of range; one before 2000 has none.
    fn number(self) -> Option<u32>
        ensures { result ≡ day_of self }
    {
        if self.year > dates::LAST_YEAR && self.exists() {
            return Some(u32::MAX);
        }
        dates::day_number(self.year, self.month, self.day)
    }
}

// A date written as 2023-05-01.
fn date_of(text: &[u8]) -> Option<Date>
    ensures { result ≡ date_of text.now }
{
    if text.len() != 10 || text[4] != b'-' || text[7] != b'-' {
        return None;
    }
    Some(Date {
        year: whole(&text[0..4])?,
        month: whole(&text[5..7])?,
        day: whole(&text[8..10])?,
    })
}

// The day from which on an entry counts: a day number, or a date.
pub(crate) fn from_of(text: &[u8]) -> Option<u32>
    ensures { result ≡ from_of text.now }
{
    if let Some(number) = whole(text) {
        return Some(number);
    }
    date_of(text)?.number()
}
