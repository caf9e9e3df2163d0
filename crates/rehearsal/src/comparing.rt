// Holds an open month against the second calculation's book.
// The month, the book and the tally stand as parameters: a call changes the month and the book, a question reads them, and the
// tally is changed by both, so a struct of the three would be made anew for each with other borrows.
use crate::driving::{charge_of, statement_of};
use crate::generator::calls::{CUSTOMERS, TRANSMITTERS};
use crate::plain::{Answer, Matter, PlainAccount, PlainCall, PlainPeak, RF, Topic, filled, put};
use crate::second::book::Book;
use crate::tally::Tally;
use hours::rules::HourRule;
use month::month::OpenMonth;
use readings::readings::SheetStore;
use std::iter;
use tariff::parties::PartyNumber;

// What stands in text memory that nothing was written to.
pub const UNWRITTEN: u8 = b'#';

// The first place where memory is not the text, and unwritten after it.
pub fn misplaced(memory: &[u8], text: &[u8]) -> Option<usize> {
    let unwritten = iter::repeat(&UNWRITTEN);
    memory
        .iter()
        .zip(text.iter().chain(unwritten))
        .position(|(byte, wanted)| *byte != *wanted)
}

// The listing into memory with `spare` places more than it needs, or fewer, and the statement that was issued last.
fn compare_listing<S: SheetStore, H: HourRule>(
    month: &OpenMonth<S, H>,
    book: &Book,
    spare: isize,
    tally: &mut Tally,
) {
    let text = book.listing();
    let places = text.len().saturating_add_signed(spare);
    let mut memory = filled(book.heap, UNWRITTEN, places);
    let library = month.write_listing(memory.as_mut_slice());
    let second = book.judge_listing(text.len(), places);
    let written = if second.is_ok() { text.as_bytes() } else { &[] };
    let wrong = misplaced(memory.as_slice(), written);
    let last = month.last().map(|statement| statement.rank());
    tally.compare(Matter::Listing, library, second);
    tally.compare(Matter::ListingMemory, wrong, Answer::Nothing);
    tally.compare(Matter::LastStatement, last, book.last);
}

// What is on record of a point, and the rates, on a day. Nothing is said of what an unsound history has on record.
fn compare_records<S: SheetStore, H: HourRule>(
    month: &OpenMonth<S, H>,
    book: &Book,
    point: u32,
    day: u32,
    tally: &mut Tally,
) {
    if !book.has_sound_histories() {
        return;
    }
    let customer = book.on_record(Topic::Customer, point, day);
    let transmitter = book.on_record(Topic::Transmitter, point, day);
    let service = book.on_record(Topic::Service, point, day);
    let rates = book.on_record(Topic::Rates, 0, day);
    tally.compare(Matter::OnRecord, month.customer(point, day), customer);
    tally.compare(Matter::OnRecord, month.transmitter(point, day), transmitter);
    tally.compare(Matter::OnRecord, month.service(point, day), service);
    tally.compare(Matter::OnRecord, month.rates(day), rates);
}

fn compare_reading<S: SheetStore, H: HourRule>(
    month: &OpenMonth<S, H>,
    book: &Book,
    point: u32,
    day: u32,
    hour: u32,
    tally: &mut Tally,
) {
    let library = month.reading(point, day, hour);
    let second = book.reading(point, day, hour);
    tally.compare(Matter::Reading, library, second);
}

// Where a call was refused, all is as before: some of it is looked at again.
fn compare_unchanged<S: SheetStore, H: HourRule>(
    month: &OpenMonth<S, H>,
    book: &Book,
    call: PlainCall,
    tally: &mut Tally,
) {
    compare_listing(month, book, 3, tally);
    match call {
        PlainCall::Post(sheet) => compare_reading(month, book, sheet.point, sheet.day, 24, tally),
        PlainCall::Enter(_, entry) => {
            compare_records(month, book, entry.subject, entry.from_day, tally)
        }
        PlainCall::Issue(rank) => compare_reading(month, book, 1, rank, 1, tally),
    }
}

// Takes one call on both sides, and compares what they answer.
pub fn compare_call<S: SheetStore, H: HourRule>(
    month: &mut OpenMonth<S, H>,
    book: &mut Book,
    call: PlainCall,
    tally: &mut Tally,
) {
    tally.begin_call();
    let library = month.take(call.into());
    let second = book.take(call);
    tally.compare(Matter::Outcome, library, second);
    match (call, second) {
        (_, Err(_)) => compare_unchanged(month, book, call, tally),
        (PlainCall::Issue(_), Ok(_)) => {
            tally.statements = tally.statements.saturating_add(1);
            compare_listing(month, book, 3, tally);
        }
        _ => {}
    }
}

// Every reading at one hour of each day, with a point, days and hours that there are not.
fn compare_readings<S: SheetStore, H: HourRule>(
    month: &OpenMonth<S, H>,
    book: &Book,
    point: u32,
    tally: &mut Tally,
) {
    for day in 0..33 {
        let hour = (day * 7 + point % 26) % 26;
        compare_reading(month, book, point, day, hour, tally);
    }
}

// Every statement's credits of each charge to each transmitter.
fn compare_credits<S: SheetStore, H: HourRule>(
    month: &OpenMonth<S, H>,
    book: &Book,
    tally: &mut Tally,
) {
    for rank in 0..=RF {
        for charge in 650..=652 {
            for number in TRANSMITTERS {
                let party = PartyNumber { number };
                let credit = month.credit(statement_of(rank), charge_of(charge), party);
                let second = book.judge_amount(book.credit(rank, charge, number));
                tally.compare(Matter::Credit, credit, second);
            }
        }
    }
}

// All accounts of a point that can occur: its charges, customers and transmitters.
fn put_accounts(all: &mut Vec<PlainAccount>, point: u32) {
    for charge in 650..=652 {
        for customer in CUSTOMERS {
            for transmitter in TRANSMITTERS {
                let account = PlainAccount {
                    point,
                    charge,
                    customer,
                    transmitter,
                };
                put(all, account);
            }
        }
    }
}

// How many points are looked at closely.
fn near_points(book: &Book) -> u32 {
    book.count().min(8)
}

pub fn accounts(book: &Book) -> Vec<PlainAccount> {
    let mut all = Vec::new(book.heap);
    for point in 1..=near_points(book) {
        put_accounts(&mut all, point);
    }
    all
}

// Every account's total, which the book keeps.
fn compare_totals<S: SheetStore, H: HourRule>(
    month: &OpenMonth<S, H>,
    book: &mut Book,
    tally: &mut Tally,
) {
    for account in accounts(book).as_slice() {
        let library = Answer::from(month.total(&(*account).into()));
        let second = book.judge_amount(book.total(*account));
        tally.compare(Matter::Total, library, second);
        put(&mut book.totals, library);
    }
}

// The readings of each point, and what is on record before, inside and after the month.
fn compare_points<S: SheetStore, H: HourRule>(
    month: &OpenMonth<S, H>,
    book: &Book,
    tally: &mut Tally,
) {
    let first_day = book.first_day();
    for point in 0..near_points(book).saturating_add(2) {
        compare_readings(month, book, point, tally);
        for days in [0, 1, 14, 40] {
            compare_records(month, book, point, first_day.saturating_add(days), tally);
        }
    }
}

fn compare_peak<S: SheetStore, H: HourRule>(
    month: &OpenMonth<S, H>,
    book: &Book,
    tally: &mut Tally,
) {
    let (quantity, day, hour) = month.peak();
    let library = PlainPeak {
        quantity,
        day,
        hour,
    };
    tally.compare(Matter::SystemPeak, library, book.system_peak());
}

// All that a month that is over answers.
pub fn compare_all<S: SheetStore, H: HourRule>(
    month: &OpenMonth<S, H>,
    book: &mut Book,
    tally: &mut Tally,
) {
    compare_listing(month, book, 3, tally);
    compare_listing(month, book, -1, tally);
    compare_credits(month, book, tally);
    compare_points(month, book, tally);
    compare_peak(month, book, tally);
    compare_totals(month, book, tally);
}
