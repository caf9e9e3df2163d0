// Texts of the second calculation: listings and lines of sheet files.
use super::book::Book;
use super::taking::judge_sheet;
use crate::plain::{PlainAccount, PlainLine, PlainPeak, PlainReading, PlainSheet, Refused};
use std::alloc::Global;
use std::fmt;

const HEADER: &str = "type|point|charge|customer|transmitter|cents|quantity|day|hour\n";

fn letters_of(rank: u32) -> &'static str {
    match rank {
        0 => "P",
        1 => "F",
        2 => "R1",
        3 => "R2",
        4 => "R3",
        5 => "R4",
        6 => "R5",
        7 => "R6",
        _ => "RF",
    }
}

// A line of a listing.
impl fmt::Display for PlainLine {
    fn fmt<W: fmt::Write>(&self, f: &mut fmt::Formatter<W>) -> fmt::Result {
        let letters = letters_of(self.rank);
        let PlainAccount {
            point,
            charge,
            customer,
            transmitter,
        } = self.account;
        let cents = self.cents;
        let PlainPeak {
            quantity,
            day,
            hour,
        } = self.determinant;
        write!(f, "{letters}|{point}|{charge}|{customer}|{transmitter}")?;
        write!(f, "|{cents}|{quantity}|{day}|{hour}")
    }
}

impl fmt::Display for PlainReading {
    fn fmt<W: fmt::Write>(&self, f: &mut fmt::Formatter<W>) -> fmt::Result {
        match *self {
            PlainReading::Withdrawal(quantity) => write!(f, "W{quantity}"),
            PlainReading::Injection(quantity) => write!(f, "I{quantity}"),
        }
    }
}

// A line of a sheet file.
impl fmt::Display for PlainSheet {
    fn fmt<W: fmt::Write>(&self, f: &mut fmt::Formatter<W>) -> fmt::Result {
        let point = self.point;
        let day = self.day;
        write!(f, "{point}|{day}")?;
        for reading in self.hours {
            write!(f, "|{reading}")?;
        }
        Ok(())
    }
}

impl Book {
    // The header and the ledger's lines in order.
    pub fn listing(&self) -> String {
        let mut text = String::new(self.heap);
        let _ = text.push_str(HEADER);
        for line in self.lines.as_slice() {
            let _ = writeln!(text, "{line}");
        }
        text
    }

    // What writing the listing answers: 17 for an unsound ledger, then 22 where the text memory is too short.
    pub fn judge_listing(&self, length: usize, places: usize) -> Result<usize, Refused> {
        self.judge_ledger()?;
        judge_text(length, places)
    }
}

// The length of a text, or 22 where there are too few places for it.
fn judge_text(length: usize, places: usize) -> Result<usize, Refused> {
    if length > places {
        return Err(Refused::of(22));
    }
    Ok(length)
}

// A sheet as a line of a sheet file, with its byte 10.
pub fn sheet_line(heap: Global, sheet: &PlainSheet) -> String {
    let mut text = String::new(heap);
    let _ = writeln!(text, "{sheet}");
    text
}

// Writing a sheet: 6 outside points 1 to 400, 7 outside days 1 to 31, 8, then 22.
pub fn judge_written(sheet: &PlainSheet, length: usize, places: usize) -> Result<usize, Refused> {
    judge_sheet(sheet, 400, 31)?;
    judge_text(length, places)
}
