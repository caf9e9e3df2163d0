// The plain vocabulary of the rehearsal: months, calls and answers as plain numbers. Nothing here is the library's.
// Charges, statements and refusals keep the numbers that the rules give them: types that name them would be the library's again.
use std::alloc::Global;

// The rank of the last statement.
pub const RF: u32 = 8;

// What a point gave to the grid or took from it in one hour.
#[derive(Clone, Copy, PartialEq, Debug)]
pub enum PlainReading {
    Withdrawal(u32),
    Injection(u32),
}

impl PlainReading {
    pub fn quantity(self) -> u32 {
        match self {
            PlainReading::Withdrawal(quantity) | PlainReading::Injection(quantity) => quantity,
        }
    }

    // An injection has no demand.
    pub fn demand(self) -> u64 {
        match self {
            PlainReading::Withdrawal(quantity) => u64::from(quantity),
            PlainReading::Injection(_) => 0,
        }
    }

    // The same with another quantity.
    pub fn with(self, quantity: u32) -> PlainReading {
        match self {
            PlainReading::Withdrawal(_) => PlainReading::Withdrawal(quantity),
            PlainReading::Injection(_) => PlainReading::Injection(quantity),
        }
    }
}

#[derive(Clone, Copy)]
pub struct PlainSheet {
    pub point: u32,
    pub day: u32,
    pub hours: [PlainReading; 24],
}

impl PlainSheet {
    // The point and day, for which the last sheet counts.
    pub fn place(&self) -> (u32, u32) {
        (self.point, self.day)
    }
}

// The kinds of history.
#[derive(Clone, Copy, PartialEq)]
pub enum Topic {
    Customer,
    Transmitter,
    Service,
    Rates,
}

// An entry of a history. A party is its number and two zeros, service 1 or 0 and two zeros, rates are those of 650, 651
// and 652 under subject 0.
#[derive(Clone, Copy)]
pub struct PlainEntry {
    pub subject: u32,
    pub from_day: u32,
    pub item: [u32; 3],
}

impl PlainEntry {
    // The subject and from-day, for which a history has one entry. By these it is in order.
    pub fn place(&self) -> (u32, u32) {
        (self.subject, self.from_day)
    }
}

// What is asked of an open month. A statement goes by its rank, P being 0 and RF 8.
#[derive(Clone, Copy)]
pub enum PlainCall {
    Post(PlainSheet),
    Enter(Topic, PlainEntry),
    Issue(u32),
}

// The charge is 650, 651 or 652.
#[derive(Clone, Copy, PartialEq)]
pub struct PlainAccount {
    pub point: u32,
    pub charge: u32,
    pub customer: u32,
    pub transmitter: u32,
}

// A quantity with its day and hour. All zeros stand for none.
#[derive(Clone, Copy, PartialEq, Debug, Default)]
pub struct PlainPeak {
    pub quantity: u64,
    pub day: u32,
    pub hour: u32,
}

// A ledger line.
#[derive(Clone, Copy)]
pub struct PlainLine {
    pub rank: u32,
    pub account: PlainAccount,
    pub cents: i64,
    pub determinant: PlainPeak,
}

// A point as it is declared: a letter and two marks.
#[derive(Clone, Copy)]
pub struct PlainPoint {
    pub letter: u8,
    pub line: bool,
    pub transformation: bool,
}

impl PlainPoint {
    pub fn is_network(self) -> bool {
        self.letter == b'N'
    }
}

#[derive(Clone, Copy)]
pub struct PlainMonth {
    pub year: u32,
    pub month: u32,
    pub holidays: u32,
    pub summer: u32,
}

// Which hours stand for the peak period.
#[derive(Clone, Copy)]
pub enum RuleKind {
    PeakPeriod,
    WholeMonth,
    EveryThirdHour,
}

#[derive(Clone, Copy)]
pub enum StoreKind {
    Rows,
    FullTable,
}

impl StoreKind {
    // A sheet takes one row, or a number for each hour.
    pub fn places_per_sheet(self) -> u32 {
        match self {
            StoreKind::Rows => 1,
            StoreKind::FullTable => 24,
        }
    }
}

// The store that a month is opened over: made for so many points and days over so many places, which are rows of the one kind
// and numbers of the other.
#[derive(Clone, Copy)]
pub struct StorePlan {
    pub kind: StoreKind,
    pub points: u32,
    pub days: u32,
    pub places: usize,
}

// A history or a ledger as it is brought: its whole memory, and how much of that is said to be in use.
#[derive(Drop)]
pub struct Shelf<T> {
    pub memory: Vec<T>,
    pub used: usize,
}

impl<T> Shelf<T> {
    // The front of the memory that is said to be in use, as far as there is memory.
    pub fn in_use(&self) -> &[T] {
        front(self.memory.as_slice(), self.used)
    }

    // Whether no more is said to be in use than there is memory.
    pub fn is_within_memory(&self) -> bool {
        self.used <= self.memory.len()
    }
}

// All that a month is opened over.
#[derive(Drop)]
pub struct Brought {
    pub rule: RuleKind,
    pub store: StorePlan,
    pub customers: Shelf<PlainEntry>,
    pub transmitters: Shelf<PlainEntry>,
    pub service: Shelf<PlainEntry>,
    pub rates: Shelf<PlainEntry>,
    pub ledger: Shelf<PlainLine>,
}

// A refusal's number in the rules, and up to two places.
#[derive(Clone, Copy, PartialEq, Debug)]
pub struct Refused {
    pub number: u32,
    pub place: u64,
    pub second_place: u64,
}

impl Refused {
    pub fn of(number: u32) -> Refused {
        Refused::at(number, 0, 0)
    }

    pub fn at(number: u32, place: u64, second_place: u64) -> Refused {
        Refused {
            number,
            place,
            second_place,
        }
    }
}

// What a call or a question is answered. An accepted call answers how many lines it wrote.
#[derive(Clone, Copy, PartialEq, Debug)]
pub enum Answer {
    Nothing,
    Number(i64),
    Reading(PlainReading),
    Item([u32; 3]),
    Peak(PlainPeak),
    Refused(Refused),
}

impl From<()> for Answer {
    fn from(_done: ()) -> Answer {
        Answer::Number(0)
    }
}

impl From<i64> for Answer {
    fn from(number: i64) -> Answer {
        Answer::Number(number)
    }
}

impl From<u32> for Answer {
    fn from(number: u32) -> Answer {
        Answer::Number(i64::from(number))
    }
}

impl From<usize> for Answer {
    fn from(count: usize) -> Answer {
        Answer::Number(i64::try_from(count).unwrap_or(i64::MAX))
    }
}

impl From<PlainReading> for Answer {
    fn from(reading: PlainReading) -> Answer {
        Answer::Reading(reading)
    }
}

impl From<PlainEntry> for Answer {
    fn from(entry: PlainEntry) -> Answer {
        Answer::Item(entry.item)
    }
}

impl From<PlainPeak> for Answer {
    fn from(peak: PlainPeak) -> Answer {
        Answer::Peak(peak)
    }
}

impl<T: Into<Answer>> From<Option<T>> for Answer {
    fn from(outcome: Option<T>) -> Answer {
        outcome.map_or(Answer::Nothing, |item| item.into())
    }
}

impl<T: Into<Answer>, E: Into<Refused>> From<Result<T, E>> for Answer {
    fn from(outcome: Result<T, E>) -> Answer {
        match outcome {
            Ok(item) => item.into(),
            Err(refusal) => Answer::Refused(refusal.into()),
        }
    }
}

// What is compared.
#[derive(Clone, Copy, Debug)]
pub enum Matter {
    Making,
    Declaring,
    Room,
    Outcome,
    LastStatement,
    Listing,
    ListingMemory,
    Credit,
    Total,
    TotalAndDue,
    TotalsOfBothOrders,
    OnRecord,
    Reading,
    SystemPeak,
    WorkedMonth,
    FileLine,
    FileSheet,
    WrittenSheet,
}

// Puts an item at the end. Where memory runs out it is left out, and what is compared or counted shows it.
pub fn put<T: Drop>(items: &mut Vec<T>, item: T) {
    let _ = items.push(item);
}

pub fn put_all<T: Copy + Clone>(items: &mut Vec<T>, more: &[T]) {
    let _ = items.extend_from_slice(more);
}

pub fn filled<T: Copy + Clone + Drop>(heap: Global, item: T, count: usize) -> Vec<T> {
    vec![in heap; item; count].unwrap_or(Vec::new(heap))
}

// The first so many items, as far as there are any.
pub fn front<T>(items: &[T], count: usize) -> &[T] {
    &items[..count.min(items.len())]
}

// Points, days and hours are numbered from 1.
pub fn number_of(index: usize) -> u32 {
    u32::try_from(index).unwrap_or(u32::MAX).saturating_add(1)
}

pub fn numbered<T>(items: &[T], number: u32) -> Option<&T> {
    items.get(number.checked_sub(1)? as usize)
}

pub fn numbered_mut<T>(items: &mut [T], number: u32) -> Option<&mut T> {
    items.get_mut(number.checked_sub(1)? as usize)
}
