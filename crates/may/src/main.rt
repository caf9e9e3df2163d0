// Settles the worked month of May 2023 through a run of its calls, and prints the ledger's listing.
#![tactic(auto)]

mod journal;

use dues::histories::MonthHistories;
use hours::rules::{HourRule, PeakPeriod};
use ledger::ledger::Ledger;
use ledger::line::Line;
use month::calls::JournalEntry;
use month::setup::MonthSetup;
use readings::readings::SheetStore;
use records::dated::Dated;
use records::history::History;
use std::io::Write;
use std::process::ExitCode;
use stores::full_table::FullTable;
use tariff::refusal::Refusal;

// The first call that was refused, if any was.
fn first_refused(journal: &[JournalEntry]) -> Option<Refusal> {
    journal.iter().find_map(|entry| entry.outcome?.err())
}

// Runs the calls over a store and memory of its own, and writes the listing to `text`; how long it is.
fn settle<S: SheetStore + Drop, H: HourRule + Drop>(
    setup: MonthSetup,
    store: S,
    peak_period: H,
    calls: &mut [JournalEntry],
    text: &mut [u8],
) -> Result<usize, Refusal> {
    let mut customers = [Dated::default(); 8];
    let mut transmitters = [Dated::default(); 8];
    let mut service = [Dated::default(); 8];
    let mut rates = [Dated::default(); 8];
    let mut lines = [Line::EMPTY; 16];
    let histories = MonthHistories {
        customers: History::over(&mut customers, 0),
        transmitters: History::over(&mut transmitters, 0),
        service: History::over(&mut service, 0),
        rates: History::over(&mut rates, 0),
    };
    let ledger = Ledger::over(&mut lines, 0);
    let mut month = setup.open(store, peak_period, histories, ledger);
    month.run(calls);
    if let Some(refusal) = first_refused(calls) {
        return Err(refusal);
    }
    month.close().questions().write_listing(text)
}

// The month over a full table. It is opened in a function for any store, since a month over a store of a type that is named
// is not covered by the borrow checker.
fn settle_may(
    calls: &mut [JournalEntry],
    words: &mut [u32],
    text: &mut [u8],
) -> Result<usize, Refusal> {
    let calendar = journal::calendar()?;
    let setup = journal::set_up()?;
    let store = FullTable::new(words, 3, 31);
    let peak_period = PeakPeriod {
        calendar: &calendar,
    };
    settle(setup, store, peak_period, calls, text)
}

fn main(rt: HostRuntime) -> anyhow::Result<ExitCode> {
    let heap = rt.alloc();
    let mut calls = journal::calls(heap)?;
    let mut words = vec![in heap; 0u32; 3 * 31 * 24]?;
    let mut text = vec![in heap; 0u8; 1024]?;
    match settle_may(
        calls.as_mut_slice(),
        words.as_mut_slice(),
        text.as_mut_slice(),
    ) {
        Ok(length) => {
            text.truncate(length);
            rt.stdout().write_all(text.as_slice())?;
            Ok(ExitCode::SUCCESS)
        }
        Err(refusal) => {
            let number = refusal.number();
            eprintln!(rt; "may: refused {number}")?;
            Ok(ExitCode::FAILURE)
        }
    }
}
