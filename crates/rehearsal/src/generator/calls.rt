// Sheets, entries and statements for a month.
use super::dice::Dice;
use crate::plain::{PlainCall, PlainEntry, PlainReading, PlainSheet, Topic, front, put};
use crate::second::book::Book;
use std::alloc::Global;

// Few, so that equal hours are common; 84,999 and 85,000 lie on either side of 85 per cent of 100,000.
const QUANTITIES: [u32; 7] = [0, 1, 60_000, 84_999, 85_000, 100_000, 99_999_999];

const RATES: [u32; 7] = [0, 7, 50_000, 90_000, 200_000, 500_000, 10_000_000];

// All parties that are entered.
pub const CUSTOMERS: [u32; 4] = [41, 42, 43, 999_999_999];

pub const TRANSMITTERS: [u32; 3] = [1, 7, 8];

const LAST_FROM_DAY: u32 = 36_524;

fn some_reading(dice: &mut Dice) -> PlainReading {
    let is_injected = dice.one_in(10);
    let quantity = dice.pick(&QUANTITIES);
    if is_injected {
        PlainReading::Injection(quantity)
    } else {
        PlainReading::Withdrawal(quantity)
    }
}

// One reading at most hours, and others at a few.
pub fn some_sheet(dice: &mut Dice, point: u32, day: u32) -> PlainSheet {
    let mut hours = [some_reading(dice); 24];
    for hour in hours.iter_mut() {
        if dice.one_in(8) {
            *hour = some_reading(dice);
        }
    }
    PlainSheet { point, day, hours }
}

// A from-day before, inside or after the month.
fn some_day(dice: &mut Dice, first: u32, last: u32) -> u32 {
    let day = match dice.roll(8) {
        0 => 0,
        1 | 2 => first.saturating_sub(dice.roll(40)),
        3 => first,
        4 => last,
        5 => last.saturating_add(dice.roll(20)).saturating_add(1),
        6 => LAST_FROM_DAY,
        _ => first.saturating_add(dice.roll(28)),
    };
    day.min(LAST_FROM_DAY)
}

pub fn some_item(dice: &mut Dice, topic: Topic) -> [u32; 3] {
    match topic {
        Topic::Customer => [dice.pick(&CUSTOMERS), 0, 0],
        Topic::Transmitter => [dice.pick(&TRANSMITTERS), 0, 0],
        Topic::Service => [dice.roll(3).min(1), 0, 0],
        Topic::Rates => [dice.pick(&RATES), dice.pick(&RATES), dice.pick(&RATES)],
    }
}

fn some_topic(dice: &mut Dice) -> Topic {
    match dice.roll(4) {
        0 => Topic::Customer,
        1 => Topic::Transmitter,
        2 => Topic::Service,
        _ => Topic::Rates,
    }
}

// An entry for a point, or under subject 0 for rates.
fn some_entry(dice: &mut Dice, book: &Book, topic: Topic, point: u32) -> PlainEntry {
    PlainEntry {
        subject: if topic == Topic::Rates { 0 } else { point },
        from_day: some_day(dice, book.first_day(), book.last_day()),
        item: some_item(dice, topic),
    }
}

// The number of one of the points, or 1.
fn some_number(dice: &mut Dice, book: &Book) -> u32 {
    dice.one_to(book.count())
}

// A sheet again, or an entry.
fn some_change(dice: &mut Dice, book: &Book) -> PlainCall {
    let point = some_number(dice, book);
    if dice.one_in(2) {
        let day = dice.one_to(book.days());
        return PlainCall::Post(some_sheet(dice, point, day));
    }
    let topic = some_topic(dice);
    PlainCall::Enter(topic, some_entry(dice, book, topic, point))
}

// A sheet with one fault or several.
fn faulty_sheet(dice: &mut Dice, book: &Book) -> PlainSheet {
    let point = some_number(dice, book);
    let day = dice.one_to(book.days());
    let mut sheet = some_sheet(dice, point, day);
    if dice.one_in(3) {
        sheet.point = dice.pick(&[0, 6, 401, u32::MAX]);
    }
    if dice.one_in(3) {
        sheet.day = dice.pick(&[0, 29, 30, 31, 32, u32::MAX]);
    }
    if dice.one_in(2) {
        for hour in sheet.hours.iter_mut() {
            if dice.one_in(9) {
                *hour = hour.with(dice.pick(&[99_999_999, 100_000_000, u32::MAX]));
            }
        }
    }
    sheet
}

// An entry with one fault or several: a point that is not declared, a from-day too late, an item out of range.
fn faulty_entry(dice: &mut Dice, book: &Book, topic: Topic) -> PlainEntry {
    let point = some_number(dice, book);
    let mut entry = some_entry(dice, book, topic, point);
    if topic != Topic::Rates && dice.one_in(3) {
        entry.subject = dice.pick(&[0, 6, 401, u32::MAX]);
    }
    if dice.one_in(3) {
        entry.from_day = dice.pick(&[36_524, 36_525, u32::MAX]);
    }
    if topic != Topic::Service && dice.one_in(2) {
        let number = if topic == Topic::Rates {
            dice.pick(&[10_000_000, 10_000_001, u32::MAX])
        } else {
            dice.pick(&[0, 1_000_000_000, u32::MAX])
        };
        entry.item = match (topic, dice.roll(3)) {
            (Topic::Rates, 1) => [0, number, 0],
            (Topic::Rates, 2) => [0, 0, number],
            _ => [number, 0, 0],
        };
    }
    entry
}

fn faulty_call(dice: &mut Dice, book: &Book) -> PlainCall {
    match dice.roll(3) {
        0 => PlainCall::Post(faulty_sheet(dice, book)),
        1 => PlainCall::Issue(dice.roll(8)),
        _ => {
            let topic = some_topic(dice);
            PlainCall::Enter(topic, faulty_entry(dice, book, topic))
        }
    }
}

// Puts calls into another order: each place is exchanged with another, so that it is places that are gone through.
fn shuffle(dice: &mut Dice, calls: &mut Vec<PlainCall>) {
    let count = calls.len();
    for i in 0..count {
        let other = dice.roll(u32::try_from(count).unwrap_or(1)) as usize;
        if i < calls.len() && other < calls.len() {
            calls.swap(i, other);
        }
    }
}

// The parties, service and rates that the month needs, from a day on.
fn put_needed_entries(dice: &mut Dice, book: &Book, calls: &mut Vec<PlainCall>) {
    let from_day = book.first_day().saturating_sub(dice.roll(3));
    for topic in [
        Topic::Rates,
        Topic::Customer,
        Topic::Transmitter,
        Topic::Service,
    ] {
        for point in 1..=book.count().max(1) {
            let mut entry = some_entry(dice, book, topic, point);
            entry.from_day = from_day;
            put(calls, PlainCall::Enter(topic, entry));
        }
    }
}

fn put_needed_sheets(dice: &mut Dice, book: &Book, calls: &mut Vec<PlainCall>) {
    for point in 1..=book.count() {
        for day in 1..=book.days() {
            let sheet = some_sheet(dice, point, day);
            put(calls, PlainCall::Post(sheet));
        }
    }
}

// What the month needs before a statement can be issued: entries, and a sheet for each point and day. One month in ten
// lacks something.
fn needed_calls(heap: Global, dice: &mut Dice, book: &Book) -> Vec<PlainCall> {
    let mut calls = Vec::new(heap);
    put_needed_entries(dice, book, &mut calls);
    put_needed_sheets(dice, book, &mut calls);
    if dice.one_in(2) {
        shuffle(dice, &mut calls);
    }
    if dice.one_in(10) {
        let _ = calls.pop();
    }
    calls
}

// Puts a call, after a faulty one now and then.
fn put_call(dice: &mut Dice, book: &Book, calls: &mut Vec<PlainCall>, call: PlainCall) {
    if dice.one_in(10) {
        let faulty = faulty_call(dice, book);
        put(calls, faulty);
    }
    put(calls, call);
}

// A month's calls without its statements: first what it needs, and then `changes` changes, with faulty calls between.
pub fn some_calls(heap: Global, dice: &mut Dice, book: &Book, changes: u32) -> Vec<PlainCall> {
    let mut calls = Vec::new(heap);
    for call in needed_calls(heap, dice, book).as_slice() {
        put_call(dice, book, &mut calls, *call);
    }
    for _ in 0..changes {
        let change = some_change(dice, book);
        put_call(dice, book, &mut calls, change);
    }
    calls
}

// Whether the second call takes the first one's place: a sheet for the same point and day, or an entry for the same
// subject and from-day.
fn replaces(first: &PlainCall, second: &PlainCall) -> bool {
    match (first, second) {
        (PlainCall::Post(a), PlainCall::Post(b)) => a.place() == b.place(),
        (PlainCall::Enter(of, a), PlainCall::Enter(topic, b)) => {
            *of == *topic && a.place() == b.place()
        }
        _ => false,
    }
}

fn is_replaced(call: &PlainCall, others: &[PlainCall]) -> bool {
    others.iter().any(|other| replaces(call, other))
}

// The calls that took another one's place and stand.
fn put_standing(calls: &mut Vec<PlainCall>, history: &[PlainCall]) {
    for (i, call) in history.iter().enumerate() {
        let later = history.get(i.saturating_add(1)..).unwrap_or(&[]);
        if is_replaced(call, front(history, i)) && !is_replaced(call, later) {
            put(calls, *call);
        }
    }
}

// The accepted sheets and entries of a month from the last to the first, and then once more each that took another one's place
// and stands: it leaves the same sheets and records.
pub fn other_order(heap: Global, history: &[PlainCall]) -> Vec<PlainCall> {
    let mut calls = Vec::new(heap);
    for call in history.iter().rev() {
        if !matches!(*call, PlainCall::Issue(_)) {
            put(&mut calls, *call);
        }
    }
    put_standing(&mut calls, history);
    calls
}
