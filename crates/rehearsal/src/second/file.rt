// The second calculation's reader of sheet files, which cuts a file into lines and these into values.
use crate::plain::{PlainReading, PlainSheet, Refused, put};
use std::alloc::Global;

const NO_SHEET: PlainSheet = PlainSheet {
    point: 0,
    day: 0,
    hours: [PlainReading::Withdrawal(0); 24],
};

// A number of 1 to `most` digits.
fn read_number(digits: &[u8], most: usize) -> Option<u32> {
    if digits.is_empty() || digits.len() > most {
        return None;
    }
    let mut number: u32 = 0;
    for digit in digits {
        if !digit.is_ascii_digit() {
            return None;
        }
        let units = u32::from(digit.saturating_sub(b'0'));
        number = number.saturating_mul(10).saturating_add(units);
    }
    Some(number)
}

fn read_reading(value: &[u8]) -> Option<PlainReading> {
    let (letter, digits) = value.split_first()?;
    let quantity = read_number(digits, 8)?;
    match *letter {
        b'W' => Some(PlainReading::Withdrawal(quantity)),
        b'I' => Some(PlainReading::Injection(quantity)),
        _ => None,
    }
}

// Takes the value at an index into a sheet, unless it is malformed: a point has 1 to 9 digits, a day 1 or 2, an hour W or I
// and 1 to 8.
fn read_value(sheet: &mut PlainSheet, index: usize, value: &[u8]) -> Option<()> {
    match index {
        0 => sheet.point = read_number(value, 9)?,
        1 => sheet.day = read_number(value, 2)?,
        _ => {
            let hour = sheet.hours.get_mut(index.saturating_sub(2))?;
            *hour = read_reading(value)?;
        }
    }
    Some(())
}

// 20 where a line has not 26 values, 21 at its first malformed value.
fn read_line(line: u64, text: &[u8]) -> Result<PlainSheet, Refused> {
    if text.iter().filter(|byte| **byte == b'|').count() != 25 {
        return Err(Refused::at(20, line, 0));
    }
    let mut sheet = NO_SHEET;
    for (i, value) in text.split(|byte| *byte == b'|').enumerate() {
        let place = (i as u64).saturating_add(1);
        read_value(&mut sheet, i, value).ok_or(Refused::at(21, place, line))?;
    }
    Ok(sheet)
}

// Every line of a file. A line ends at byte 10 or at the file's end; after a last byte 10 no line follows.
pub fn read_file(heap: Global, text: &[u8]) -> Vec<Result<PlainSheet, Refused>> {
    let mut lines = Vec::new(heap);
    for (i, line) in text.split_inclusive(|byte| *byte == b'\n').enumerate() {
        let number = (i as u64).saturating_add(1);
        let line = line.strip_suffix(b"\n").unwrap_or(line);
        put(&mut lines, read_line(number, line));
    }
    lines
}
