// Sheet files: the library's reader and writer against the second calculation's.
use crate::comparing::{UNWRITTEN, misplaced};
use crate::generator::dice::Dice;
use crate::generator::files::some_file;
use crate::plain::{Answer, Matter, PlainCall, PlainSheet, Refused, filled, put};
use crate::second::book::Book;
use crate::second::file::read_file;
use crate::second::written::{judge_written, sheet_line};
use crate::tally::Tally;
use sheet_file::faults::FileFault;
use sheet_file::file::SheetReader;
use sheet_file::writer::write_sheet;
use std::alloc::Global;
use tariff::reading::Sheet;
use tariff::refusal::Refusal;

// Point, day and the 24 readings.
fn compare_sheet(sheet: &Sheet, plain: &PlainSheet, tally: &mut Tally) {
    let library = Answer::Item([sheet.point, sheet.day, 0]);
    let second = Answer::Item([plain.point, plain.day, 0]);
    tally.compare(Matter::FileSheet, library, second);
    for (reading, hour) in sheet.readings.iter().zip(plain.hours.iter()) {
        tally.compare(Matter::FileSheet, *reading, *hour);
    }
}

type PlainOutcome = Result<PlainSheet, Refused>;

fn compare_line(outcome: Result<Sheet, FileFault>, plain: &PlainOutcome, tally: &mut Tally) {
    tally.file_lines = tally.file_lines.saturating_add(1);
    let library = outcome.map_err(Refusal::from);
    tally.compare(Matter::FileLine, library.map(|_| ()), plain.map(|_| ()));
    if let (Ok(sheet), Ok(plain)) = (library, plain) {
        compare_sheet(&sheet, plain, tally);
    }
}

// Reads a file on both sides, as many lines as the second calculation finds and then no more.
fn compare_lines(text: &[u8], lines: &[PlainOutcome], tally: &mut Tally) {
    let mut reader = SheetReader::new(text);
    for line in lines {
        match reader.next() {
            Some(result) => compare_line(result, line, tally),
            None => tally.compare(Matter::FileLine, Answer::Nothing, line.map(|_| ())),
        }
    }
    if reader.next().is_some() {
        tally.compare(Matter::FileLine, (), Answer::Nothing);
    }
}

// Writes a sheet on both sides, into memory with `places` places: 6, 7, 8, then 22.
fn compare_written(heap: Global, sheet: &PlainSheet, places: usize, tally: &mut Tally) {
    let text = sheet_line(heap, sheet);
    let mut memory = filled(heap, UNWRITTEN, places);
    let library = write_sheet(&(*sheet).into(), memory.as_mut_slice());
    let second = judge_written(sheet, text.len(), places);
    let written = if second.is_ok() { text.as_bytes() } else { &[] };
    let wrong = misplaced(memory.as_slice(), written);
    tally.compare(Matter::WrittenSheet, library, second);
    tally.compare(Matter::WrittenSheet, wrong, Answer::Nothing);
}

// Reads a file on both sides; the sheets that it has are written on both sides, and put with the month's calls.
pub fn compare_file(book: &Book, dice: &mut Dice, calls: &mut Vec<PlainCall>, tally: &mut Tally) {
    let text = some_file(book.heap, dice, book.count(), book.days());
    let lines = read_file(book.heap, text.as_slice());
    compare_lines(text.as_slice(), lines.as_slice(), tally);
    for sheet in lines.iter().filter_map(|line| line.ok()) {
        let places = dice.pick(&[60, 110, 140, 250]);
        compare_written(book.heap, &sheet, places, tally);
        put(calls, PlainCall::Post(sheet));
    }
}
