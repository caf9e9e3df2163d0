// The lines before a month is open.
use crate::answers::Teller;
use crate::memory::{Memory, SheetMemory};
use calendar::month::Calendar;
use job::command::{Command, Places, StoreKind};
use job::lines::{JobLine, JobLines, is_call};
use job::parse::parse;
use month::setup::MonthSetup;
use std::alloc::{AllocError, Global};
use std::io;
use std::io::Write;
use tariff::refusal::Refusal;

// A month without points yet, and its calendar for the rule of its peak period.
#[derive(Drop)]
pub(crate) struct Begun {
    setup: MonthSetup,
    calendar: Calendar,
}

// A month that is set up, and the memory to open it over.
#[derive(Drop)]
pub(crate) struct Opening {
    pub(crate) setup: MonthSetup,
    pub(crate) calendar: Calendar,
    pub(crate) points: u32,
    pub(crate) sheets: SheetMemory,
    pub(crate) memory: Memory,
}

fn begin(year: u32, month: u32, holidays: u32, summer: u32) -> Result<Begun, Refusal> {
    Ok(Begun {
        setup: MonthSetup::new(year, month, holidays, summer)?,
        calendar: Calendar::new(year, month, holidays, summer)?,
    })
}

// The month that a line begins, if it does.
fn take_month<W: Write>(teller: &mut Teller<W>, line: JobLine) -> io::Result<Option<Begun>> {
    let number = line.number;
    match parse(line.text) {
        Ok(
            Command::Month {
                year,
                month,
                holidays,
                summer,
            },
        ) => match begin(year, month, holidays, summer) {
            Ok(begun) => {
                teller.accept(number)?;
                return Ok(Some(begun));
            }
            Err(refusal) => teller.refuse(number, refusal)?,
        },
        Ok(_) => teller.malformed(
            number,
            "there is no month yet: begin it first, by a line month",
        )?,
        Err(fault) => teller.malformed(number, fault)?,
    }
    Ok(None)
}

// Takes lines until one begins a month.
pub(crate) fn await_month<W: Write>(
    teller: &mut Teller<W>,
    lines: &mut JobLines,
) -> io::Result<Option<Begun>> {
    for line in lines.by_ref() {
        if is_call(line.text) {
            let begun = take_month(teller, line)?;
            if begun.is_some() {
                return Ok(begun);
            }
        }
    }
    Ok(None)
}

// How a line opens the month.
#[derive(Clone, Copy)]
struct Wanted {
    line: u64,
    store: StoreKind,
    places: Option<Places>,
}

// Takes a line of a month in set-up, whose points so far are counted; how it is to be opened, if the line says so.
fn take_line<W: Write>(
    teller: &mut Teller<W>,
    setup: &mut MonthSetup,
    points: &mut u32,
    line: JobLine,
) -> io::Result<Option<Wanted>> {
    let number = line.number;
    match parse(line.text) {
        Ok(Command::Point(point)) => match setup.declare_point(point) {
            Ok(point) => {
                *points = point;
                teller.accept_number(number, u64::from(point))?;
            }
            Err(refusal) => teller.refuse(number, refusal)?,
        },
        Ok(Command::Open { store, places }) => {
            return Ok(Some(Wanted {
                line: number,
                store,
                places,
            }));
        }
        Ok(Command::Month { .. }) => teller.malformed(
            number,
            "the month is begun already: a job has one",
        )?,
        Ok(_) => teller.malformed(
            number,
            "the month is not open yet: open it first, by a line open",
        )?,
        Err(fault) => teller.malformed(number, fault)?,
    }
    Ok(None)
}

// The memory that the month is opened over.
fn memory_for(
    heap: Global,
    points: u32,
    days: u32,
    wanted: Wanted,
) -> Result<(SheetMemory, Memory), AllocError> {
    let sheets = SheetMemory::new(heap, wanted.store, points, days)?;
    let memory = Memory::new(heap, points, wanted.places)?;
    Ok((sheets, memory))
}

// Takes lines until one opens the month.
pub(crate) fn set_up<W: Write>(
    teller: &mut Teller<W>,
    begun: Begun,
    lines: &mut JobLines,
) -> io::Result<Option<Opening>> {
    let Begun {
        mut setup,
        calendar,
    } = begun;
    let mut points = 0;
    for line in lines.by_ref() {
        if !is_call(line.text) {
            continue;
        }
        let Some(wanted) = take_line(teller, &mut setup, &mut points, line)? else {
            continue;
        };
        match memory_for(teller.rt.alloc(), points, calendar.days(), wanted) {
            Ok((sheets, memory)) => {
                teller.accept(wanted.line)?;
                return Ok(Some(Opening {
                    setup,
                    calendar,
                    points,
                    sheets,
                    memory,
                }));
            }
            Err(_) => teller.malformed(wanted.line, "there is no memory for so many places")?,
        }
    }
    Ok(None)
}
