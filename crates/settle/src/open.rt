// The lines of an open month.
use crate::answers::Teller;
use crate::closed::{answer_questions, list};
use crate::input::read_sheets;
use crate::memory::{Memory, SheetMemory};
use crate::set_up::Opening;
use clerk::answers::take;
use clerk::posting::post_next;
use dues::histories::MonthHistories;
use hours::rules::{HourRule, PeakPeriod};
use job::command::Command;
use job::lines::{JobLine, JobLines, is_call};
use job::parse::parse;
use ledger::ledger::Ledger;
use month::month::OpenMonth;
use month::setup::MonthSetup;
use readings::readings::{Readings, SheetStore};
use records::history::History;
use sheet_file::file::SheetReader;
use std::io;
use std::io::Write;
use stores::full_table::FullTable;
use stores::row_store::RowStore;

// Posts every sheet of a file and answers how many were posted, after each line that is refused. Each step is one call,
// which takes a line from the file and posts it to the month, so that no `for` over the file alone stands for it.
fn post_file<S: SheetStore, H: HourRule, W: Write>(
    teller: &mut Teller<W>,
    month: &mut OpenMonth<S, H>,
    file: &[u8],
    number: u64,
) -> io::Result<()> {
    let mut reader = SheetReader::new(file);
    let mut line: u64 = 0;
    let mut posted: u64 = 0;
    while let Some(answer) = post_next(month, &mut reader) {
        line = line.saturating_add(1);
        match answer {
            Ok(_) => posted = posted.saturating_add(1),
            Err(refusal) => teller.refuse_sheet(number, line, refusal)?,
        }
        teller.tell_sheets(number, line)?;
    }
    teller.accept_number(number, posted)
}

fn take_sheets<S: SheetStore, H: HourRule, W: Write>(
    teller: &mut Teller<W>,
    month: &mut OpenMonth<S, H>,
    name: &[u8],
    number: u64,
) -> io::Result<()> {
    match read_sheets(teller.rt, name) {
        Ok(file) => post_file(teller, month, file.as_slice(), number),
        Err(fault) => {
            writeln!(
                teller.out,
                "{number}|malformed|the file cannot be read: {fault}"
            )
        }
    }
}

// Takes one line; whether it closes the month.
fn take_line<S: SheetStore, H: HourRule, W: Write>(
    teller: &mut Teller<W>,
    month: &mut OpenMonth<S, H>,
    line: JobLine,
) -> io::Result<bool> {
    let number = line.number;
    let command = match parse(line.text) {
        Ok(command) => command,
        Err(fault) => {
            teller.malformed(number, fault)?;
            return Ok(false);
        }
    };
    if let Some(answer) = take(month, number, command) {
        teller.reply(number, answer)?;
        return Ok(false);
    }
    match command {
        Command::Sheets(name) => take_sheets(teller, month, name, number)?,
        Command::Listing => list(teller, month, number)?,
        Command::Close => {
            teller.accept(number)?;
            return Ok(true);
        }
        _ => teller.malformed(
            number,
            "the month is open already: a job has one, and its points come before it is opened",
        )?,
    }
    Ok(false)
}

// Takes lines until one closes the month; whether one did.
fn take_until_close<S: SheetStore, H: HourRule, W: Write>(
    teller: &mut Teller<W>,
    month: &mut OpenMonth<S, H>,
    lines: &mut JobLines,
) -> io::Result<bool> {
    for line in lines.by_ref() {
        if is_call(line.text) && take_line(teller, month, line)? {
            return Ok(true);
        }
        teller.tell_line(line.number)?;
    }
    Ok(false)
}

// Opens the month over a store, works through its lines, and after its close through the questions.
fn work_over<S: SheetStore + Drop, H: HourRule + Drop, W: Write>(
    teller: &mut Teller<W>,
    setup: MonthSetup,
    store: S,
    peak_period: H,
    memory: &mut Memory,
    lines: &mut JobLines,
) -> io::Result<()> {
    let histories = MonthHistories {
        customers: History::over(memory.customers.as_mut_slice(), 0),
        transmitters: History::over(memory.transmitters.as_mut_slice(), 0),
        service: History::over(memory.service.as_mut_slice(), 0),
        rates: History::over(memory.rates.as_mut_slice(), 0),
    };
    let ledger = Ledger::over(memory.lines.as_mut_slice(), 0);
    let mut month = setup.open(store, peak_period, histories, ledger);
    if take_until_close(teller, &mut month, lines)? {
        answer_questions(teller, month.close().questions(), lines)?;
    }
    Ok(())
}

// Settles the month over the store that the job asks for. The two stores are two types, made where they are lent memory; the
// arms have no more in common than the call.
pub(crate) fn work<W: Write>(
    teller: &mut Teller<W>,
    opening: Opening,
    lines: &mut JobLines,
) -> io::Result<()> {
    let Opening {
        setup,
        calendar,
        points,
        sheets,
        mut memory,
    } = opening;
    let days = calendar.days();
    let peak_period = PeakPeriod {
        calendar: &calendar,
    };
    match sheets {
        SheetMemory::Table(mut words) => {
            let store = FullTable::new(words.as_mut_slice(), points, days);
            work_over(teller, setup, store, peak_period, &mut memory, lines)
        }
        SheetMemory::Rows(mut rows) => {
            let store = RowStore::new(rows.as_mut_slice(), points, days);
            work_over(teller, setup, store, peak_period, &mut memory, lines)
        }
    }
}
