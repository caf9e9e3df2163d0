// The worked month of May 2023, as it is told in the rules.
use crate::comparing::misplaced;
use crate::generator::brought::bare;
use crate::generator::dice::Dice;
use crate::plain::{
    Answer, Matter, PlainCall, PlainEntry, PlainMonth, PlainPoint, PlainReading, PlainSheet,
    RuleKind, Topic, put,
};
use crate::rehearsing::{compare_orders, settle_at_the_end};
use crate::second::book::Book;
use crate::settling::{Script, Statements, settle_month};
use crate::tally::Tally;
use std::alloc::Global;

const LISTING: &[u8] = b"type|point|charge|customer|transmitter|cents|quantity|day|hour
P|1|650|41|7|637500|12750000|10|18
P|2|650|42|7|1150000|23000000|11|3
P|3|651|41|7|54000|6000000|21|1
P|3|652|41|7|120000|6000000|21|1
F|1|650|41|7|-637500|0|0|0
F|1|650|43|7|637500|12750000|10|18
F|2|650|42|7|-150000|20000000|31|24
";

// All summer, no holidays.
const MAY: PlainMonth = PlainMonth {
    year: 2023,
    month: 5,
    holidays: 0,
    summer: 0x7fff_ffff,
};

const POINTS: [PlainPoint; 3] = [
    PlainPoint {
        letter: b'N',
        line: false,
        transformation: false,
    },
    PlainPoint {
        letter: b'N',
        line: false,
        transformation: false,
    },
    PlainPoint {
        letter: b'C',
        line: true,
        transformation: true,
    },
];

fn level(point: u32, day: u32, quantity: u32) -> PlainSheet {
    PlainSheet {
        point,
        day,
        hours: [PlainReading::Withdrawal(quantity); 24],
    }
}

// A point's usual quantity, but for a few hours of the month.
fn sheet_of(point: u32, day: u32) -> PlainSheet {
    let usual = match point {
        1 => 100_000,
        2 => 200_000,
        _ => 50_000,
    };
    let mut sheet = level(point, day, usual);
    match (point, day) {
        (1, 10) => sheet.hours[17] = PlainReading::Withdrawal(150_000),
        (2, 10) => sheet.hours[17] = PlainReading::Withdrawal(140_000),
        (2, 11) => sheet.hours[2] = PlainReading::Withdrawal(230_000),
        (3, 20) => sheet.hours[23] = PlainReading::Withdrawal(60_000),
        (3, 21) => sheet.hours[0] = PlainReading::Withdrawal(60_000),
        _ => {}
    }
    sheet
}

fn entry(topic: Topic, subject: u32, from_day: u32, item: [u32; 3]) -> PlainCall {
    PlainCall::Enter(
        topic,
        PlainEntry {
            subject,
            from_day,
            item,
        },
    )
}

// What is on record from the first day on.
fn put_records(calls: &mut Vec<PlainCall>) {
    for (point, customer) in [(1, 41), (2, 42), (3, 41)] {
        put(
            calls,
            entry(Topic::Customer, point, 8_521, [customer, 0, 0]),
        );
        put(calls, entry(Topic::Transmitter, point, 8_521, [7, 0, 0]));
    }
    put(calls, entry(Topic::Service, 3, 8_521, [1, 0, 0]));
    put(
        calls,
        entry(Topic::Rates, 0, 8_521, [500_000, 90_000, 200_000]),
    );
}

fn calls_of_may(heap: Global) -> Vec<PlainCall> {
    let mut calls = Vec::new(heap);
    put_records(&mut calls);
    for point in 1..=3 {
        for day in 1..=31 {
            put(&mut calls, PlainCall::Post(sheet_of(point, day)));
        }
    }
    put(&mut calls, PlainCall::Issue(0));
    put(&mut calls, entry(Topic::Customer, 1, 8_551, [43, 0, 0]));
    put(&mut calls, PlainCall::Post(level(2, 11, 200_000)));
    put(&mut calls, PlainCall::Issue(1));
    calls
}

fn compare_text(listing: &[u8], tally: &mut Tally) {
    let differs = misplaced(listing, LISTING);
    tally.compare(Matter::WorkedMonth, differs, Answer::Nothing);
    tally.compare(Matter::WorkedMonth, LISTING.len(), listing.len());
}

fn book_of_may(heap: Global, dice: &mut Dice) -> Book {
    let brought = bare(heap, dice, MAY, 3, 8, RuleKind::PeakPeriod);
    Book::new(heap, MAY, &POINTS, brought)
}

// The library's listing is compared with the second calculation's, and that with the text. RF at the end writes no line. The
// same month in another order ends with the same totals.
pub fn rehearse_may(heap: Global, tally: &mut Tally) {
    tally.begin_month();
    let mut dice = Dice::new(5);
    let mut book = book_of_may(heap, &mut dice);
    let calls = calls_of_may(heap);
    let script = Script {
        calls: calls.as_slice(),
        statements: Statements::AtTheEnd,
    };
    settle_month(&mut book, &POINTS, script, tally);
    compare_text(book.listing().as_bytes(), tally);
    let mut again = book_of_may(heap, &mut dice);
    settle_at_the_end(&mut again, &POINTS, book.history.as_slice(), tally);
    compare_orders(&book, &again, tally);
}
