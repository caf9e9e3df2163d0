// Rehearses many months: each is settled by the library and by a second calculation that shares no code with it, and every
// outcome, listing, credit and total is compared.
#![tactic(auto)]

mod comparing;
mod driving;
mod generator;
mod plain;
mod rehearsing;
mod second;
mod settling;
mod tally;
mod texts;
mod thirds;
mod worked;

use anyhow::anyhow;
use rehearsing::{rehearse_bare, rehearse_contents, rehearse_many_points};
use std::alloc::Global;
use std::io;
use tally::{Difference, Tally};
use worked::rehearse_may;

// Months that start bare and are settled in two orders.
const BARE_MONTHS: u64 = 300;

// Months that are opened over memory with contents.
const MONTHS_WITH_CONTENTS: u64 = 600;

fn rehearse(heap: Global, tally: &mut Tally) {
    rehearse_may(heap, tally);
    rehearse_many_points(heap, tally);
    for number in 0..BARE_MONTHS {
        if tally.difference.is_some() {
            return;
        }
        rehearse_bare(heap, number, tally);
    }
    for number in 0..MONTHS_WITH_CONTENTS {
        if tally.difference.is_some() {
            return;
        }
        rehearse_contents(heap, number, tally);
    }
}

fn tell(rt: &HostRuntime, what: &str, count: u32) -> io::Result<()> {
    println!(rt; "{what}: {count}")
}

fn report_counts(rt: &HostRuntime, tally: &Tally) -> io::Result<()> {
    tell(rt, "months compared", tally.months)?;
    tell(
        rt,
        "months settled up to RF in two orders, with the same totals",
        tally.both_orders,
    )?;
    tell(rt, "calls compared", tally.calls)?;
    tell(rt, "statements issued", tally.statements)?;
    tell(rt, "lines of sheet files read", tally.file_lines)?;
    tell(
        rt,
        "answers compared, with listings, credits, totals and records",
        tally.answers,
    )
}

// Each refusal's number, and how often it was met.
fn report_refusals(rt: &HostRuntime, tally: &Tally) -> io::Result<()> {
    print!(rt; "refusals met:")?;
    for (number, count) in tally.refusals.iter().enumerate().skip(1) {
        print!(rt; " {number} x{count}")?;
    }
    println!(rt; "")
}

// Says where the two sides differ.
fn complain(rt: &HostRuntime, difference: Difference) -> io::Result<()> {
    let month = difference.month;
    let call = difference.call;
    let matter = difference.matter;
    let library = difference.library;
    let second = difference.second;
    eprintln!(rt; "rehearsal: month {month}, call {call}: {matter:?}")?;
    eprintln!(rt; "rehearsal: library {library:?}, second calculation {second:?}")
}

fn main(rt: HostRuntime) -> anyhow::Result<()> {
    let mut tally = Tally::default();
    rehearse(rt.alloc(), &mut tally);
    if let Some(difference) = tally.difference {
        complain(&rt, difference)?;
        return Err(anyhow!("the two calculations differ"));
    }
    report_counts(&rt, &tally)?;
    report_refusals(&rt, &tally)?;
    Ok(())
}
