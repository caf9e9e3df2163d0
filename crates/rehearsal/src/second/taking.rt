// The second calculation's answers to calls, with the refusals in their order.
use super::book::Book;
use super::soundness::{is_party, shelf_is_sound};
use crate::plain::{
    PlainCall, PlainEntry, PlainSheet, Refused, StorePlan, Topic, front, number_of, put,
};

// A store's check: at most 400 points, 28 to 31 days, and memory for a sheet of each point and day.
pub fn judge_store(store: StorePlan) -> Result<(), Refused> {
    if store.points > 400 || !(28..=31).contains(&store.days) {
        return Err(Refused::of(5));
    }
    let sheets = u64::from(store.points) * u64::from(store.days);
    if sheets.saturating_mul(u64::from(store.kind.places_per_sheet())) > store.places as u64 {
        return Err(Refused::of(5));
    }
    Ok(())
}

// Points of 1 to `points`, days of 1 to `days`, and quantities within the limit, in hour order.
pub fn judge_sheet(sheet: &PlainSheet, points: u32, days: u32) -> Result<(), Refused> {
    if !(1..=points).contains(&sheet.point) {
        return Err(Refused::of(6));
    }
    if !(1..=days).contains(&sheet.day) {
        return Err(Refused::of(7));
    }
    let too_large = sheet
        .hours
        .iter()
        .position(|reading| reading.quantity() > 99_999_999);
    match too_large {
        Some(index) => Err(Refused::at(8, u64::from(number_of(index)), 0)),
        None => Ok(()),
    }
}

impl Book {
    // A store that its check refuses is one of no points and no days.
    pub fn judge_fit(&self) -> Result<(), Refused> {
        let store = self.brought.store;
        judge_store(store)?;
        if (store.points, store.days) != (self.count(), self.days()) {
            return Err(Refused::of(5));
        }
        Ok(())
    }

    fn judge_post(&self, sheet: &PlainSheet) -> Result<(), Refused> {
        self.judge_fit()?;
        judge_sheet(sheet, self.count(), self.days())
    }

    // What is wrong with the point that an entry is for.
    fn judge_subject(&self, topic: Topic, subject: u32) -> Result<(), Refused> {
        if topic == Topic::Rates {
            return Ok(());
        }
        let point = self.point(subject).ok_or(Refused::of(6))?;
        if topic == Topic::Service && point.is_network() {
            return Err(Refused::of(13));
        }
        Ok(())
    }

    fn judge_entry(&self, topic: Topic, entry: PlainEntry) -> Result<(), Refused> {
        let shelf = self.shelf(topic);
        if !shelf_is_sound(topic, shelf) {
            return Err(Refused::of(17));
        }
        self.judge_subject(topic, entry.subject)?;
        if entry.from_day > 36_524 {
            return Err(Refused::of(9));
        }
        judge_item(topic, entry.item)?;
        let entries = self.entries(topic);
        let is_new = !is_among(entries.as_slice(), &entry);
        if is_new && count_distinct(entries.as_slice()) >= shelf.memory.len() {
            return Err(Refused::of(12));
        }
        Ok(())
    }

    // Answers how many lines a call wrote, and keeps the call if it is accepted.
    pub fn take(&mut self, call: PlainCall) -> Result<usize, Refused> {
        let lines = match call {
            PlainCall::Post(sheet) => self.judge_post(&sheet).map(|_| 0)?,
            PlainCall::Enter(topic, entry) => self.judge_entry(topic, entry).map(|_| 0)?,
            PlainCall::Issue(rank) => self.issue(rank)?,
        };
        put(&mut self.history, call);
        Ok(lines)
    }
}

// Whether one of the entries is for the same subject and from-day.
fn is_among(entries: &[PlainEntry], entry: &PlainEntry) -> bool {
    entries.iter().any(|other| other.place() == entry.place())
}

// How many entries there are when each takes the place of an earlier one for its subject and from-day.
fn count_distinct(entries: &[PlainEntry]) -> usize {
    entries
        .iter()
        .enumerate()
        .filter(|(i, entry)| !is_among(front(entries, *i), entry))
        .count()
}

// Parties are 1 to 999,999,999, else 10; rates at most 10,000,000, else 11.
pub fn judge_item(topic: Topic, item: [u32; 3]) -> Result<(), Refused> {
    let [party, _, _] = item;
    match topic {
        Topic::Customer | Topic::Transmitter if !is_party(party) => Err(Refused::of(10)),
        Topic::Rates if item.iter().any(|rate| *rate > 10_000_000) => Err(Refused::of(11)),
        _ => Ok(()),
    }
}
