// Why a call is refused. A refusal changes nothing.
ghost use Rattle.std.specs.Prelude.{◌≡◌};
ghost use Rattle.tariff.specs.Refusals.{number_of};

use std::fmt;

#[derive(Clone, Copy)]
pub enum Refusal {
    // The year is not from 2000 to 2099, or the month not from 1 to 12.
    NoSuchMonth,
    // A holiday or summer mark on a day that the month lacks.
    MarkOutsideMonth,
    // Neither N without marks nor C with one or two.
    NotAPointKind,
    // A 401st delivery point.
    TooManyPoints,
    // More than 400 points, days outside 28 to 31, or too little memory.
    StoreDoesNotFit,
    // A point that is not declared.
    UnknownPoint,
    // A day that the month lacks.
    UnknownDay,
    // The first hour, 1 to 24, whose quantity is above the limit.
    QuantityTooLarge { hour: u32 },
    // A from-day after 31 December 2099.
    DayOutOfRange,
    // A party number that is not from 1 to 999,999,999.
    PartyOutOfRange,
    // A rate above the limit.
    RateTooHigh,
    // A new entry, and no place left in its history.
    HistoryFull,
    // Service for a network point.
    ServiceOfNetworkPoint,
    // A statement type that is not in turn.
    OutOfTurn,
    // The first point, and its first day, without a sheet.
    SheetMissing { point: u32, day: u32 },
    // Nothing on record on the last day: the first such point, or 0 for the rates.
    NothingOnRecord { point: u32 },
    // A history or ledger with more in use than it may have, out of order, or with a number outside its range.
    Unsound,
    // More lines to write than places left in the ledger.
    LedgerFull,
    // An increment beyond what a ledger line takes.
    IncrementTooLarge,
    // A line of a sheet file that has not 26 values.
    NotTwentySixValues { line: u64 },
    // The first malformed value, 1 to 26, of a line.
    MalformedValue { place: u8, line: u64 },
    // The text memory is too short.
    TextTooShort,
}

impl Refusal {
    // The number under which the refusal is known.
    pub fn number(self) -> u32
        ensures { result ≡ number_of self }
    {
        match self {
            Refusal::NoSuchMonth => 1,
            Refusal::MarkOutsideMonth => 2,
            Refusal::NotAPointKind => 3,
            Refusal::TooManyPoints => 4,
            Refusal::StoreDoesNotFit => 5,
            Refusal::UnknownPoint => 6,
            Refusal::UnknownDay => 7,
            Refusal::QuantityTooLarge { .. } => 8,
            Refusal::DayOutOfRange => 9,
            Refusal::PartyOutOfRange => 10,
            Refusal::RateTooHigh => 11,
            Refusal::HistoryFull => 12,
            Refusal::ServiceOfNetworkPoint => 13,
            Refusal::OutOfTurn => 14,
            Refusal::SheetMissing { .. } => 15,
            Refusal::NothingOnRecord { .. } => 16,
            Refusal::Unsound => 17,
            Refusal::LedgerFull => 18,
            Refusal::IncrementTooLarge => 19,
            Refusal::NotTwentySixValues { .. } => 20,
            Refusal::MalformedValue { .. } => 21,
            Refusal::TextTooShort => 22,
        }
    }
}

// The cause in words.
impl fmt::Display for Refusal {
    fn fmt<W: fmt::Write>(&self, f: &mut fmt::Formatter<W>) -> fmt::Result {
        f.write_str(match *self {
            Refusal::NoSuchMonth => "the year is 2000 to 2099 and the month 1 to 12",
            Refusal::MarkOutsideMonth => "a day is marked that the month lacks",
            Refusal::NotAPointKind => "a point is N, or C with L, T or LT",
            Refusal::TooManyPoints => "a month has at most 400 points",
            Refusal::StoreDoesNotFit => "the store does not fit the month",
            Refusal::UnknownPoint => "the point is not declared",
            Refusal::UnknownDay => "the day is not in the month",
            Refusal::QuantityTooLarge { .. } => "the quantity is above 99999999",
            Refusal::DayOutOfRange => "the from-day is after 31 December 2099",
            Refusal::PartyOutOfRange => "a party number is 1 to 999999999",
            Refusal::RateTooHigh => "a rate is at most 10000000",
            Refusal::HistoryFull => "no place is left for a new entry",
            Refusal::ServiceOfNetworkPoint => "a network point has no service record",
            Refusal::OutOfTurn => "the statement type is not in turn",
            Refusal::SheetMissing { .. } => "the sheet is missing",
            Refusal::NothingOnRecord { point: 0 } => "no rates are on record on the last day",
            Refusal::NothingOnRecord { .. } => {
                "the point has no customer or no transmitter on record on the last day"
            }
            Refusal::Unsound => "a history or the ledger is not sound",
            Refusal::LedgerFull => "no place is left for the lines",
            Refusal::IncrementTooLarge => "an increment is beyond the line limit",
            Refusal::NotTwentySixValues { .. } => "the line has not 26 values",
            Refusal::MalformedValue { .. } => "the value is malformed",
            Refusal::TextTooShort => "the text memory is too short",
        })
    }
}
