// The worked month of May 2023: its set-up and its calls.
use calendar::month::Calendar;
use month::calls::{Call, JournalEntry};
use month::setup::MonthSetup;
use std::alloc::{AllocError, Global};
use tariff::parties::{PartyNumber, Rates, Service};
use tariff::points::Declaration;
use tariff::reading::{Reading, Sheet};
use tariff::refusal::Refusal;
use tariff::statement::Statement;

// 1 May and 31 May 2023 as day numbers.
const FIRST: u32 = 8_521;

const LAST: u32 = 8_551;

const NO_DAYS: u32 = 0;

const ALL_DAYS: u32 = 0x7fff_ffff;

const NETWORK: Declaration = Declaration {
    letter: b'N',
    line: false,
    transformation: false,
};

// With both charges.
const CONNECTION: Declaration = Declaration {
    letter: b'C',
    line: true,
    transformation: true,
};

// A sheet with one quantity at all hours.
fn level(point: u32, day: u32, quantity: u32) -> Sheet {
    Sheet {
        point,
        day,
        readings: [Reading::Withdrawal(quantity); 24],
    }
}

// A point's usual quantity, but for a few hours of the month.
fn sheet_of(point: u32, day: u32) -> Sheet {
    let usual = match point {
        1 => 100_000,
        2 => 200_000,
        _ => 50_000,
    };
    let mut sheet = level(point, day, usual);
    match (point, day) {
        (1, 10) => sheet.readings[17] = Reading::Withdrawal(150_000),
        (2, 10) => sheet.readings[17] = Reading::Withdrawal(140_000),
        (2, 11) => sheet.readings[2] = Reading::Withdrawal(230_000),
        (3, 20) => sheet.readings[23] = Reading::Withdrawal(60_000),
        (3, 21) => sheet.readings[0] = Reading::Withdrawal(60_000),
        _ => {}
    }
    sheet
}

fn customer(point: u32, from_day: u32, number: u32) -> Call {
    Call::Customer {
        point,
        from_day,
        party: PartyNumber { number },
    }
}

fn transmitter(point: u32, from_day: u32, number: u32) -> Call {
    Call::Transmitter {
        point,
        from_day,
        party: PartyNumber { number },
    }
}

fn note(journal: &mut Vec<JournalEntry>, call: Call) -> Result<(), AllocError> {
    journal.push(JournalEntry {
        call,
        outcome: None,
    })?;
    Ok(())
}

// What is on record from the first day on: the customers, a transmitter, service of the connection point, the rates.
fn note_records(journal: &mut Vec<JournalEntry>) -> Result<(), AllocError> {
    for (point, number) in [(1, 41), (2, 42), (3, 41)] {
        note(journal, customer(point, FIRST, number))?;
        note(journal, transmitter(point, FIRST, 7))?;
    }
    let service = Service { in_service: true };
    note(
        journal,
        Call::Service {
            point: 3,
            from_day: FIRST,
            service,
        },
    )?;
    let rates = Rates {
        network: 500_000,
        line: 90_000,
        transformation: 200_000,
    };
    note(
        journal,
        Call::Rates {
            from_day: FIRST,
            rates,
        },
    )
}

// The month's calls: records, sheets and the first statement; a new customer, a sheet posted again, the second statement.
pub(crate) fn calls(heap: Global) -> Result<Vec<JournalEntry>, AllocError> {
    let mut journal = Vec::new(heap);
    note_records(&mut journal)?;
    for point in 1..=3 {
        for day in 1..=31 {
            note(&mut journal, Call::Post(sheet_of(point, day)))?;
        }
    }
    note(&mut journal, Call::Issue(Statement::P))?;
    note(&mut journal, customer(1, LAST, 43))?;
    note(&mut journal, Call::Post(level(2, 11, 200_000)))?;
    note(&mut journal, Call::Issue(Statement::F))?;
    Ok(journal)
}

// All summer, no holidays.
pub(crate) fn calendar() -> Result<Calendar, Refusal> {
    Calendar::new(2023, 5, NO_DAYS, ALL_DAYS)
}

// Two network points and a connection point with both charges.
pub(crate) fn set_up() -> Result<MonthSetup, Refusal> {
    let mut setup = MonthSetup::new(2023, 5, NO_DAYS, ALL_DAYS)?;
    for point in [NETWORK, NETWORK, CONNECTION] {
        setup.declare_point(point)?;
    }
    Ok(setup)
}
