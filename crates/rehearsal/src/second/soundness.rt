// Whether what was brought is sound.
use super::taking::judge_item;
use crate::plain::{PlainEntry, PlainLine, Shelf, Topic};

fn entry_is_sound(topic: Topic, entry: &PlainEntry) -> bool {
    let subjects = match topic {
        Topic::Rates => 0..=0,
        _ => 1..=400,
    };
    subjects.contains(&entry.subject)
        && entry.from_day <= 36_524
        && judge_item(topic, entry.item).is_ok()
}

// No more in use than there is memory, every number in its range, and entries by subject, then from-day.
pub fn shelf_is_sound(topic: Topic, shelf: &Shelf<PlainEntry>) -> bool {
    let entries = shelf.in_use();
    shelf.is_within_memory()
        && entries.iter().all(|entry| entry_is_sound(topic, entry))
        && entries.is_sorted_by(|entry, next| entry.place() < next.place())
}

pub fn is_party(number: u32) -> bool {
    (1..=999_999_999).contains(&number)
}

// The most cents of a line, either side of zero; as many ten-thousandths of a kW are the largest quantity.
const LINE_LIMIT: i64 = 9_999_999_900;

pub const LINES_LIMIT: usize = 100_000;

pub fn is_within_limit(cents: i64) -> bool {
    (-LINE_LIMIT..=LINE_LIMIT).contains(&cents)
}

fn line_is_sound(line: &PlainLine) -> bool {
    (1..=400).contains(&line.account.point)
        && is_party(line.account.customer)
        && is_party(line.account.transmitter)
        && is_within_limit(line.cents)
        && line.determinant.quantity <= 9_999_999_900
        && line.determinant.day <= 31
        && line.determinant.hour <= 24
}

pub fn ledger_is_sound(ledger: &Shelf<PlainLine>) -> bool {
    ledger.is_within_memory()
        && ledger.used <= LINES_LIMIT
        && ledger.in_use().iter().all(line_is_sound)
}
