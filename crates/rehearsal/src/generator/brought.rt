// What a month is opened over.
use super::calls::some_item;
use super::dice::Dice;
use super::months::some_rule;
use crate::plain::{
    Brought, PlainAccount, PlainEntry, PlainLine, PlainMonth, PlainPeak, RuleKind, Shelf,
    StoreKind, StorePlan, Topic, filled,
};
use crate::second::days::days_in;
use std::alloc::Global;

// Memory that is not in use may hold anything.
const ANYTHING: PlainEntry = PlainEntry {
    subject: u32::MAX,
    from_day: 7,
    item: [u32::MAX, 3, 4],
};

const ANY_LINE: PlainLine = PlainLine {
    rank: 3,
    account: PlainAccount {
        point: 4_000,
        charge: 651,
        customer: 0,
        transmitter: 41,
    },
    cents: i64::MIN,
    determinant: PlainPeak {
        quantity: u64::MAX,
        day: 77,
        hour: 99,
    },
};

// A store that fits the month.
fn fitting_store(dice: &mut Dice, points: u32, days: u32) -> StorePlan {
    let kind = if dice.one_in(2) {
        StoreKind::Rows
    } else {
        StoreKind::FullTable
    };
    let sheets = points.saturating_mul(days);
    StorePlan {
        kind,
        points,
        days,
        places: sheets.saturating_mul(kind.places_per_sheet()) as usize,
    }
}

fn bare_shelf<T: Copy + Clone + Drop>(heap: Global, anything: T, places: usize) -> Shelf<T> {
    Shelf {
        memory: filled(heap, anything, places),
        used: 0,
    }
}

// Nothing posted, entered or written. The ledger has room for all statements; each history has `places` places.
pub fn bare(
    heap: Global,
    dice: &mut Dice,
    month: PlainMonth,
    points: u32,
    places: usize,
    rule: RuleKind,
) -> Brought {
    Brought {
        rule,
        store: fitting_store(dice, points, days_in(month.year, month.month)),
        customers: bare_shelf(heap, ANYTHING, places),
        transmitters: bare_shelf(heap, ANYTHING, places),
        service: bare_shelf(heap, ANYTHING, places),
        rates: bare_shelf(heap, ANYTHING, places),
        ledger: bare_shelf(heap, ANY_LINE, 400),
    }
}

// A store that often does not fit: for other points or days, or over too little memory.
fn some_store(dice: &mut Dice, points: u32, days: u32) -> StorePlan {
    let mut store = fitting_store(dice, points, days);
    match dice.roll(10) {
        0 => store.points = points.saturating_add(1),
        1 => store.days = dice.pick(&[0, 27, 28, 29, 30, 31, 32]),
        2 => store.places = store.places.saturating_sub(1),
        3 => store.points = dice.pick(&[0, 400, 401, u32::MAX]),
        _ => {}
    }
    store
}

// An entry of a history that is damaged now and then. Service has no item out of range.
fn damaged(dice: &mut Dice, topic: Topic, entry: PlainEntry) -> PlainEntry {
    let mut bad = entry;
    match dice.roll(if topic == Topic::Service { 2 } else { 3 }) {
        0 => bad.subject = dice.pick(&[0, 1, 400, 401]),
        1 => bad.from_day = dice.pick(&[0, 36_524, 36_525]),
        2 => bad.item = [dice.pick(&[0, 1, 10_000_001, 1_000_000_000]), 0, 0],
        _ => {}
    }
    bad
}

// The entry at a place of a history: in order, two to a subject.
fn brought_entry(dice: &mut Dice, topic: Topic, from_day: u32, place: u32) -> PlainEntry {
    let entry = PlainEntry {
        subject: if topic == Topic::Rates {
            0
        } else {
            place / 2 + 1
        },
        from_day: from_day.saturating_add(place),
        item: some_item(dice, topic),
    };
    if dice.one_in(12) {
        return damaged(dice, topic, entry);
    }
    entry
}

// Memory with a few items in use and fewer than `most` places left. How much is in use may be told wrong.
fn some_shelf<T: Copy + Clone + Drop, F: FnMut(&mut Dice, u32) -> T>(
    heap: Global,
    dice: &mut Dice,
    anything: T,
    most: u32,
    mut some_item: F,
) -> Shelf<T>
    requires { F.IsAlwaysCallable some_item }
{
    let in_use = dice.roll(6);
    let places = in_use.saturating_add(dice.roll(most)) as usize;
    let mut memory = filled(heap, anything, places);
    for (item, place) in memory.iter_mut().zip(0..in_use) {
        *item = some_item(dice, place);
    }
    let length = memory.len();
    Shelf {
        memory,
        used: if dice.one_in(12) {
            length.saturating_add(1)
        } else {
            in_use as usize
        },
    }
}

// A history with a few entries in use, mostly in order and sound, and a few places left.
fn some_history(heap: Global, dice: &mut Dice, topic: Topic, from_day: u32) -> Shelf<PlainEntry> {
    some_shelf(heap, dice, ANYTHING, 12, |dice, place| {
        brought_entry(dice, topic, from_day, place)
    })
}

// A line that is sound more often than not.
fn some_line(dice: &mut Dice) -> PlainLine {
    let large = if dice.one_in(3) { 0 } else { 9_999_999_900 };
    let mut line = PlainLine {
        rank: dice.roll(9),
        account: PlainAccount {
            point: dice.pick(&[1, 1, 1, 2, 400]),
            charge: dice.pick(&[650, 650, 651, 652]),
            customer: dice.pick(&[41, 41, 42]),
            transmitter: dice.pick(&[7, 7, 8]),
        },
        cents: if dice.one_in(3) { -large } else { large },
        determinant: PlainPeak {
            quantity: 9_999_999_900,
            day: dice.roll(32),
            hour: dice.roll(25),
        },
    };
    match dice.roll(80) {
        0 => line.account.point = dice.pick(&[0, 401]),
        1 => line.account.customer = dice.pick(&[0, 1_000_000_000]),
        2 => line.account.transmitter = dice.pick(&[0, 1_000_000_000]),
        3 => line.cents = 9_999_999_901,
        4 => line.cents = -9_999_999_901,
        5 => line.determinant.quantity = 9_999_999_901,
        6 => line.determinant.day = 32,
        7 => line.determinant.hour = 25,
        _ => {}
    }
    line
}

// A ledger with a few lines in use and few places left.
fn some_ledger(heap: Global, dice: &mut Dice) -> Shelf<PlainLine> {
    some_shelf(heap, dice, ANY_LINE, 16, |dice, _| some_line(dice))
}

// Memory with contents, which the calls that meet it have to test.
pub fn with_contents(
    heap: Global,
    dice: &mut Dice,
    month: PlainMonth,
    points: u32,
    from_day: u32,
) -> Brought {
    let days = days_in(month.year, month.month);
    Brought {
        rule: some_rule(dice),
        store: some_store(dice, points, days),
        customers: some_history(heap, dice, Topic::Customer, from_day),
        transmitters: some_history(heap, dice, Topic::Transmitter, from_day),
        service: some_history(heap, dice, Topic::Service, from_day),
        rates: some_history(heap, dice, Topic::Rates, from_day),
        ledger: some_ledger(heap, dice),
    }
}
