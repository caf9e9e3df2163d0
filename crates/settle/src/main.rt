// Settles a month by a job: takes each line as one call of the month, and prints one answer for each.
#![tactic(auto)]

mod answers;
mod closed;
mod input;
mod memory;
mod open;
mod progress;
mod set_up;

use crate::answers::Teller;
use crate::input::{Source, read_job};
use crate::progress::Progress;
use crate::set_up::await_month;
use job::lines::JobLines;
use std::env;
use std::io::{BufWriter, Write};
use std::process::ExitCode;

const USAGE: &str = "\
usage: settle [FILE..]
reads a job from the files, one after another, or from standard input (also for -), and prints one answer for each call:
  LINE|ok, LINE|refused|NUMBER|PLACE..|words or LINE|malformed|words
a job has one call on each line, values split by |; blank lines and lines that begin with # are passed over:
  month|YEAR|MONTH|HOLIDAYS|SUMMER         days as 1,5,22-24 or nothing
  point|N     point|C|L     point|C|T     point|C|LT
  open|table  or  open|rows                then, if wanted, places for customers, transmitters, service, rates and ledger
  customer|POINT|FROM|PARTY                FROM is a date, 2023-05-01, or a day number
  transmitter|POINT|FROM|PARTY
  service|POINT|FROM|Y     service|POINT|FROM|N
  rates|FROM|NETWORK|LINE|TRANSFORMATION
  sheet|POINT|DAY|H1|..|H24
  sheets|FILE
  issue|TYPE
  credit|TYPE|600|TRANSMITTER              600, 601 or 602
  total|POINT|CHARGE|CUSTOMER|TRANSMITTER
  peak
  listing
  close
";

// Works through a job from its month to its end.
fn settle<W: Write>(rt: &HostRuntime, job: &[u8], out: &mut W) -> anyhow::Result<()> {
    let progress = Progress::of(rt, job);
    let mut teller = Teller { rt, out, progress };
    let mut lines = JobLines::new(job);
    if let Some(month) = await_month(&mut teller, &mut lines)?
        && let Some(opening) = set_up::set_up(&mut teller, month, &mut lines)?
    {
        open::work(&mut teller, opening, &mut lines)?;
    }
    progress.end(rt)?;
    Ok(())
}

fn run<W: Write>(rt: &HostRuntime, out: &mut W) -> anyhow::Result<()> {
    let args: Vec<String> = env::args(rt)?.skip(1).collect(rt.alloc())?;
    match read_job(rt, args.as_slice())? {
        Source::Help => out.write_all(USAGE.as_bytes())?,
        Source::Job(job) => settle(rt, job.as_slice(), out)?,
    }
    Ok(())
}

fn main(rt: HostRuntime) -> anyhow::Result<ExitCode> {
    let mut out = BufWriter::new(rt.alloc(), rt.stdout())?;
    let result = run(&rt, &mut out);
    out.flush()?;
    match result {
        Ok(()) => Ok(ExitCode::SUCCESS),
        Err(fault) => {
            eprintln!(rt; "settle: {fault}")?;
            Ok(ExitCode::FAILURE)
        }
    }
}
