// The second calculation's book of a month: all that was brought and every accepted call. What is on record, what was read and
// what is due are worked out from these anew each time.
use super::days::{days_in, first_day};
use crate::plain::{
    Answer, Brought, PlainCall, PlainEntry, PlainLine, PlainMonth, PlainPoint, PlainReading,
    Refused, Shelf, Topic, numbered, put, put_all,
};
use std::alloc::Global;

#[derive(Drop)]
pub struct Book {
    pub heap: Global,
    pub month: PlainMonth,
    pub points: Vec<PlainPoint>,
    pub brought: Brought,
    pub history: Vec<PlainCall>,
    // The ledger's lines in use.
    pub lines: Vec<PlainLine>,
    // The rank of the statement that was issued last.
    pub last: Option<u32>,
    // The totals of all accounts when the month was over, as the library answered them.
    pub totals: Vec<Answer>,
}

impl Book {
    pub fn new(
        heap: Global,
        month: PlainMonth,
        declarations: &[PlainPoint],
        brought: Brought,
    ) -> Book {
        let mut lines = Vec::new(heap);
        put_all(&mut lines, brought.ledger.in_use());
        Book {
            heap,
            month,
            points: declared_points(heap, declarations),
            brought,
            history: Vec::new(heap),
            lines,
            last: None,
            totals: Vec::new(heap),
        }
    }

    pub fn days(&self) -> u32 {
        days_in(self.month.year, self.month.month)
    }

    pub fn first_day(&self) -> u32 {
        first_day(self.month.year, self.month.month)
    }

    pub fn last_day(&self) -> u32 {
        self.first_day()
            .saturating_add(self.days())
            .saturating_sub(1)
    }

    // How many points there are, which is the number of the last one.
    pub fn count(&self) -> u32 {
        u32::try_from(self.points.len()).unwrap_or(u32::MAX)
    }

    // What was declared under a point's number.
    pub fn point(&self, number: u32) -> Option<PlainPoint> {
        numbered(self.points.as_slice(), number).copied()
    }

    pub fn shelf(&self, topic: Topic) -> &Shelf<PlainEntry> {
        match topic {
            Topic::Customer => &self.brought.customers,
            Topic::Transmitter => &self.brought.transmitters,
            Topic::Service => &self.brought.service,
            Topic::Rates => &self.brought.rates,
        }
    }

    // All entries of a history as they came: those that were brought, then those that were accepted.
    pub fn entries(&self, topic: Topic) -> Vec<PlainEntry> {
        let mut entries = Vec::new(self.heap);
        put_all(&mut entries, self.shelf(topic).in_use());
        for call in self.history.as_slice() {
            if let PlainCall::Enter(of, entry) = *call
                && of == topic
            {
                put(&mut entries, entry);
            }
        }
        entries
    }

    pub fn on_record(&self, topic: Topic, subject: u32, day: u32) -> Option<PlainEntry> {
        latest_of(self.entries(topic).as_slice(), subject, day)
    }

    // The reading of an hour: that of the last sheet for the point and day.
    pub fn reading(&self, point: u32, day: u32, hour: u32) -> Option<PlainReading> {
        self.history.iter().rev().find_map(|call| match call {
            PlainCall::Post(sheet) if sheet.place() == (point, day) => {
                numbered(&sheet.hours, hour).copied()
            }
            _ => None,
        })
    }
}

// A 401st point is 4; any other than N without marks or C with one or two is 3. One that is taken is answered its number.
pub fn judge_point(declared: usize, point: PlainPoint) -> Result<usize, Refused> {
    if declared >= 400 {
        return Err(Refused::of(4));
    }
    let marked = point.line || point.transformation;
    match (point.letter, marked) {
        (b'N', false) | (b'C', true) => Ok(declared.saturating_add(1)),
        _ => Err(Refused::of(3)),
    }
}

pub fn declared_points(heap: Global, declarations: &[PlainPoint]) -> Vec<PlainPoint> {
    let mut points = Vec::new(heap);
    for point in declarations {
        if judge_point(points.len(), *point).is_ok() {
            put(&mut points, *point);
        }
    }
    points
}

// What is on record: the item with the greatest from-day not after the day, and of one from-day the last that came.
pub fn latest_of(entries: &[PlainEntry], subject: u32, day: u32) -> Option<PlainEntry> {
    entries
        .iter()
        .filter(|entry| entry.subject == subject && entry.from_day <= day)
        .max_by_key(|entry| entry.from_day)
        .copied()
}
