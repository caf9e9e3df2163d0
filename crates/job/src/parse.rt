// One line of a job: a call's name and its values, with bars between.
ghost use Rattle.std.specs.Prelude.{◌≡◌, ◌∷◌, [], map, Ok};
ghost use Rattle.job.specs.Commands.{nth_value, told, takes_count, month_call, point_call, places_of, open_call, entry_of, service_call, rates_call, credit_call, total_call, command_of, parsed};
ghost use Rattle.job.specs.Said.{said};

use crate::command::Malformed::BadValue;
use crate::command::{Command, Malformed, Places, Word};
use crate::days::days_of;
use crate::numbers::whole;
use crate::point_list::{NO_POINT, marks};
use crate::values::{
    charge_of, credit_of, from_of, party_of, service_of, statement_of, store_of, word_of,
};
use tariff::parties::{PartyNumber, Rates};
use tariff::points::Declaration;
use text::cuts::{count_marks, cut};

const BAR: u8 = b'|';

// Who is on record for a point, and from when on.
#[derive(Clone, Copy)]
pub(crate) struct Entry {
    point: u32,
    from_day: u32,
    party: PartyNumber,
}

// The first six values after a call's name; one that is not there is empty.
fn first_six(rest: &[u8]) -> [&[u8]; 6]
    ensures { map (λ v. v.now) result ≡ nth_value 0 rest.now ∷ nth_value 1 rest.now ∷ nth_value 2 rest.now ∷ nth_value 3 rest.now ∷ nth_value 4 rest.now ∷ nth_value 5 rest.now ∷ [] }
{
    let (first, others) = cut(rest, BAR);
    let (second, others) = cut(others, BAR);
    let (third, others) = cut(others, BAR);
    let (fourth, others) = cut(others, BAR);
    let (fifth, others) = cut(others, BAR);
    let (sixth, _) = cut(others, BAR);
    [first, second, third, fourth, fifth, sixth]
}

// Whether a call takes so many values.
fn takes(word: Word, count: usize) -> bool
    ensures { result ≡ takes_count word count }
{
    match word {
        Word::Peak | Word::Listing | Word::Close => count == 0,
        Word::Sheets | Word::Issue => count == 1,
        Word::Point => count == 1 || count == 2,
        Word::Open => count == 1 || count == 6,
        Word::Customer | Word::Transmitter | Word::Service | Word::Credit => count == 3,
        Word::Month | Word::Rates | Word::Total => count == 4,
        Word::Sheet => count >= 1,
    }
}

fn read_month<'a>(
    year: &[u8],
    month: &[u8],
    holidays: &[u8],
    summer: &[u8],
) -> Result<Command<'a>, Malformed>
    ensures { told result ≡ month_call year.now month.now holidays.now summer.now }
{
    Ok(Command::Month {
        year: whole(year).ok_or(BadValue(1))?,
        month: whole(month).ok_or(BadValue(2))?,
        holidays: days_of(holidays).ok_or(BadValue(3))?,
        summer: days_of(summer).ok_or(BadValue(4))?,
    })
}

// A letter, and L, T or LT where there is a second value. What is not so written is a point that no kind fits,
// so that the call refuses it.
fn read_point<'a>(count: usize, letter: &[u8], others: &[u8]) -> Command<'a>
    ensures { Ok (said result) ≡ point_call count letter.now others.now }
{
    let point = match (letter, marks(others)) {
        ([_], Some((false, false))) if count == 2 => NO_POINT,
        ([letter], Some((line, transformation))) => Declaration {
            letter: *letter,
            line,
            transformation,
        },
        _ => NO_POINT,
    };
    Command::Point(point)
}

fn read_places(
    customers: &[u8],
    transmitters: &[u8],
    service: &[u8],
    rates: &[u8],
    ledger: &[u8],
) -> Result<Places, Malformed>
    ensures { result ≡ places_of customers.now transmitters.now service.now rates.now ledger.now }
{
    Ok(Places {
        customers: whole(customers).ok_or(BadValue(2))?,
        transmitters: whole(transmitters).ok_or(BadValue(3))?,
        service: whole(service).ok_or(BadValue(4))?,
        rates: whole(rates).ok_or(BadValue(5))?,
        ledger: whole(ledger).ok_or(BadValue(6))?,
    })
}

// A store, and places where there are values for them.
fn read_open<'a>(
    count: usize,
    store: &[u8],
    places: Result<Places, Malformed>,
) -> Result<Command<'a>, Malformed>
    ensures { told result ≡ open_call count store.now places }
{
    let store = store_of(store).ok_or(BadValue(1))?;
    let places = if count == 1 { None } else { Some(places?) };
    Ok(Command::Open { store, places })
}

fn read_entry(point: &[u8], from_day: &[u8], party: &[u8]) -> Result<Entry, Malformed>
    ensures { result ≡ entry_of point.now from_day.now party.now }
{
    Ok(Entry {
        point: whole(point).ok_or(BadValue(1))?,
        from_day: from_of(from_day).ok_or(BadValue(2))?,
        party: party_of(party).ok_or(BadValue(3))?,
    })
}

fn read_service<'a>(point: &[u8], from_day: &[u8], service: &[u8]) -> Result<Command<'a>, Malformed>
    ensures { told result ≡ service_call point.now from_day.now service.now }
{
    Ok(Command::Service {
        point: whole(point).ok_or(BadValue(1))?,
        from_day: from_of(from_day).ok_or(BadValue(2))?,
        service: service_of(service).ok_or(BadValue(3))?,
    })
}

fn read_rates<'a>(
    from_day: &[u8],
    network: &[u8],
    line: &[u8],
    transformation: &[u8],
) -> Result<Command<'a>, Malformed>
    ensures { told result ≡ rates_call from_day.now network.now line.now transformation.now }
{
    Ok(Command::Rates {
        from_day: from_of(from_day).ok_or(BadValue(1))?,
        rates: Rates {
            network: whole(network).ok_or(BadValue(2))?,
            line: whole(line).ok_or(BadValue(3))?,
            transformation: whole(transformation).ok_or(BadValue(4))?,
        },
    })
}

fn read_credit<'a>(
    statement: &[u8],
    charge: &[u8],
    transmitter: &[u8],
) -> Result<Command<'a>, Malformed>
    ensures { told result ≡ credit_call statement.now charge.now transmitter.now }
{
    Ok(Command::Credit {
        statement: statement_of(statement).ok_or(BadValue(1))?,
        charge: credit_of(charge).ok_or(BadValue(2))?,
        transmitter: party_of(transmitter).ok_or(BadValue(3))?,
    })
}

fn read_total<'a>(
    point: &[u8],
    charge: &[u8],
    customer: &[u8],
    transmitter: &[u8],
) -> Result<Command<'a>, Malformed>
    ensures { told result ≡ total_call point.now charge.now customer.now transmitter.now }
{
    Ok(Command::Total {
        point: whole(point).ok_or(BadValue(1))?,
        charge: charge_of(charge).ok_or(BadValue(2))?,
        customer: party_of(customer).ok_or(BadValue(3))?,
        transmitter: party_of(transmitter).ok_or(BadValue(4))?,
    })
}

// The command of a call with `count` values, which stand in `rest`. A sheet's values are not looked into.
fn command<'a>(word: Word, count: usize, rest: &'a [u8]) -> Result<Command<'a>, Malformed>
    ensures { told result ≡ command_of word count rest.now }
{
    let [a, b, c, d, e, f] = first_six(rest);
    match word {
        Word::Month => read_month(a, b, c, d),
        Word::Point => Ok(read_point(count, a, b)),
        Word::Open => read_open(count, a, read_places(b, c, d, e, f)),
        Word::Customer => {
            let Entry {
                point,
                from_day,
                party,
            } = read_entry(a, b, c)?;
            Ok(Command::Customer {
                point,
                from_day,
                party,
            })
        }
        Word::Transmitter => {
            let Entry {
                point,
                from_day,
                party,
            } = read_entry(a, b, c)?;
            Ok(Command::Transmitter {
                point,
                from_day,
                party,
            })
        }
        Word::Service => read_service(a, b, c),
        Word::Rates => read_rates(a, b, c, d),
        Word::Sheet => Ok(Command::Sheet(rest)),
        Word::Sheets => Ok(Command::Sheets(a)),
        Word::Issue => Ok(Command::Issue(statement_of(a).ok_or(BadValue(1))?)),
        Word::Credit => read_credit(a, b, c),
        Word::Total => read_total(a, b, c, d),
        Word::Peak => Ok(Command::Peak),
        Word::Listing => Ok(Command::Listing),
        Word::Close => Ok(Command::Close),
    }
}

// Reads one line of a job.
pub fn parse(line: &[u8]) -> Result<Command<'_>, Malformed>
    ensures { told result ≡ parsed line.now }
{
    let (name, rest) = cut(line, BAR);
    let word = word_of(name).ok_or(Malformed::UnknownCall)?;
    let count = count_marks(line, BAR);
    if !takes(word, count) {
        return Err(Malformed::WrongCount);
    }
    command(word, count, rest)
}
