// A month that is open for calls.
ghost use Rattle.std.specs.Prelude.{◌≡◌, None};

use crate::closed::ClosedMonth;
use crate::setup::MonthSetup;
use dues::histories::MonthHistories;
use hours::rules::HourRule;
use ledger::ledger::Ledger;
use readings::readings::SheetStore;
use tariff::statement::Statement;

mod questions;
mod running;
mod taking;

// Store, histories and ledger are the caller's, with any contents; any hour rule may stand for the peak period.
// Clauses read an open month by `state_of`: a month as a value holds functions (its sheets by point and day, the hours of its
// peak period), and the value by which clauses see a type of its own (`Model`) has to be plain data.
#[derive(Drop)]
pub struct OpenMonth<'a, S: SheetStore, H: HourRule> {
    setup: MonthSetup,
    store: S,
    peak_period: H,
    histories: MonthHistories<'a>,
    ledger: Ledger<'a>,
    last: Option<Statement>,
}

impl<'a, S: SheetStore, H: HourRule> OpenMonth<'a, S, H> {
    pub(crate) fn begin(
        setup: MonthSetup,
        store: S,
        peak_period: H,
        histories: MonthHistories<'a>,
        ledger: Ledger<'a>,
    ) -> OpenMonth<'a, S, H>
        ensures { result ≡ record { setup = setup; store = store; peak_period = peak_period; histories = histories.entry; ledger = ledger.entry; last = None } }
    {
        OpenMonth {
            setup,
            store,
            peak_period,
            histories,
            ledger,
            last: None,
        }
    }

    // Ends the calls; all that the month holds can still be asked for.
    pub fn close(self) -> ClosedMonth<'a, S, H>
        ensures { result.month ≡ self.entry }
    {
        ClosedMonth { month: self }
    }
}
