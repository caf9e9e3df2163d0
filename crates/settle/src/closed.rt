// Questions: of an open month, and of a closed one, which takes nothing else.
use crate::answers::Teller;
use clerk::answers::ask;
use hours::rules::HourRule;
use job::command::Command;
use job::lines::{JobLine, JobLines, is_call};
use job::parse::parse;
use month::month::OpenMonth;
use readings::readings::SheetStore;
use std::io;
use std::io::Write;

// More bytes than the header or a line of a listing has.
const LONGEST: usize = 128;

// Prints the ledger's listing as it is.
pub(crate) fn list<S: SheetStore, H: HourRule, W: Write>(
    teller: &mut Teller<W>,
    month: &OpenMonth<S, H>,
    number: u64,
) -> io::Result<()> {
    let bytes = month
        .lines()
        .len()
        .saturating_add(1)
        .saturating_mul(LONGEST);
    let mut text = vec![in teller.rt.alloc(); 0u8; bytes]?;
    match month.write_listing(text.as_mut_slice()) {
        Ok(length) => {
            text.truncate(length);
            teller.out.write_all(text.as_slice())
        }
        Err(refusal) => teller.refuse(number, refusal),
    }
}

fn answer_line<S: SheetStore, H: HourRule, W: Write>(
    teller: &mut Teller<W>,
    month: &OpenMonth<S, H>,
    line: JobLine,
) -> io::Result<()> {
    let number = line.number;
    match parse(line.text) {
        Ok(Command::Listing) => list(teller, month, number),
        Ok(command) => match ask(month, command) {
            Some(answer) => teller.reply(number, answer),
            None => teller.malformed(
                number,
                "the month is closed: it answers credit, total, peak and listing only",
            ),
        },
        Err(fault) => teller.malformed(number, fault),
    }
}

// Takes lines to the job's end.
pub(crate) fn answer_questions<S: SheetStore, H: HourRule, W: Write>(
    teller: &mut Teller<W>,
    month: &OpenMonth<S, H>,
    lines: &mut JobLines,
) -> io::Result<()> {
    for line in lines.by_ref() {
        if is_call(line.text) {
            answer_line(teller, month, line)?;
        }
    }
    Ok(())
}
