// The answers, a line for each call.
use crate::progress::Progress;
use clerk::answers::Answer;
use std::fmt::Display;
use std::io;
use std::io::Write;
use tariff::refusal::Refusal;

// Who answers the lines of a job: the system, where the answers go, and how far the job is.
#[derive(Drop)]
pub(crate) struct Teller<'a, W> {
    pub(crate) rt: &'a HostRuntime,
    pub(crate) out: &'a mut W,
    pub(crate) progress: Progress,
}

impl<W: Write> Teller<'_, W> {
    pub(crate) fn accept(&mut self, line: u64) -> io::Result<()> {
        writeln!(self.out, "{line}|ok")
    }

    pub(crate) fn accept_number(&mut self, line: u64, number: u64) -> io::Result<()> {
        writeln!(self.out, "{line}|ok|{number}")
    }

    // The refusal's number and its places. The line of a sheet is not among them: it is the job's line, or told in the words.
    fn begin_refusal(&mut self, line: u64, refusal: Refusal) -> io::Result<()> {
        let number = refusal.number();
        match refusal {
            Refusal::QuantityTooLarge { hour } => {
                write!(self.out, "{line}|refused|{number}|{hour}|")
            }
            Refusal::SheetMissing { point, day } => {
                write!(self.out, "{line}|refused|{number}|{point}|{day}|")
            }
            Refusal::NothingOnRecord { point } => {
                write!(self.out, "{line}|refused|{number}|{point}|")
            }
            Refusal::MalformedValue { place, .. } => {
                write!(self.out, "{line}|refused|{number}|{place}|")
            }
            _ => write!(self.out, "{line}|refused|{number}|"),
        }
    }

    pub(crate) fn refuse(&mut self, line: u64, refusal: Refusal) -> io::Result<()> {
        self.begin_refusal(line, refusal)?;
        writeln!(self.out, "{refusal}")
    }

    // A line of a sheet file is refused.
    pub(crate) fn refuse_sheet(
        &mut self,
        line: u64,
        sheet: u64,
        refusal: Refusal,
    ) -> io::Result<()> {
        self.begin_refusal(line, refusal)?;
        writeln!(self.out, "line {sheet}: {refusal}")
    }

    pub(crate) fn reply(&mut self, line: u64, answer: Result<Answer, Refusal>) -> io::Result<()> {
        match answer {
            Ok(Answer::Done) => self.accept(line),
            Ok(Answer::Lines(lines)) => writeln!(self.out, "{line}|ok|{lines}"),
            Ok(Answer::Cents(cents)) => writeln!(self.out, "{line}|ok|{cents}"),
            Ok(
                Answer::Peak {
                    quantity,
                    day,
                    hour,
                },
            ) => writeln!(self.out, "{line}|ok|{quantity}|{day}|{hour}"),
            Err(refusal) => self.refuse(line, refusal),
        }
    }

    // A line that is no call, or one in the wrong state of the month: nothing is changed.
    pub(crate) fn malformed(&mut self, line: u64, cause: impl Display + Drop) -> io::Result<()> {
        writeln!(self.out, "{line}|malformed|{cause}")
    }

    // How far the job is, where that is shown.
    pub(crate) fn tell_line(&mut self, line: u64) -> io::Result<()> {
        self.progress.tell(self.rt, line)
    }

    // While a file of sheets is posted.
    pub(crate) fn tell_sheets(&mut self, line: u64, sheets: u64) -> io::Result<()> {
        self.progress.tell_sheets(self.rt, line, sheets)
    }
}
