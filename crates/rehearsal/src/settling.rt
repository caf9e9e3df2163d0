// Settles a month through the library and the second calculation side by side.
use crate::comparing::{compare_all, compare_call};
use crate::driving::memory_of;
use crate::plain::{Matter, PlainCall, PlainMonth, PlainPoint, RF, RuleKind, StoreKind, filled};
use crate::second::book::{Book, judge_point};
use crate::second::days::judge_month;
use crate::tally::Tally;
use crate::thirds::EveryThirdHour;
use calendar::month::Calendar;
use dues::histories::MonthHistories;
use hours::rules::{HourRule, PeakPeriod, WholeMonth};
use ledger::ledger::Ledger;
use ledger::line::Line;
use month::month::OpenMonth;
use month::setup::MonthSetup;
use readings::readings::{Readings, SheetStore};
use records::dated::Dated;
use records::history::History;
use stores::full_table::FullTable;
use stores::row_store::{Row, RowStore};
use tariff::parties::{PartyNumber, Rates, Service};

// When statements are tried that are no calls of the script.
#[derive(Clone, Copy, PartialEq)]
pub enum Statements {
    // And at the end, too.
    AfterEverySheet,
    AtTheEnd,
}

// What a month is taken through.
#[derive(Clone, Copy)]
pub struct Script<'a> {
    pub calls: &'a [PlainCall],
    pub statements: Statements,
}

// The type after the one issued last; RF is kept for the end.
fn next_rank(last: Option<u32>) -> u32 {
    last.map_or(0, |rank| rank.saturating_add(1).min(RF - 1))
}

// The types that are left to come to RF.
fn compare_ending<S: SheetStore, H: HourRule>(
    month: &mut OpenMonth<S, H>,
    book: &mut Book,
    tally: &mut Tally,
) {
    for rank in [0, 1, RF] {
        if book.last.is_none_or(|last| last < rank) {
            compare_call(month, book, PlainCall::Issue(rank), tally);
        }
    }
}

fn compare_calls<S: SheetStore, H: HourRule>(
    month: &mut OpenMonth<S, H>,
    book: &mut Book,
    script: Script,
    tally: &mut Tally,
) {
    for call in script.calls {
        compare_call(month, book, *call, tally);
        if script.statements == Statements::AfterEverySheet && matches!(*call, PlainCall::Post(_)) {
            let next = PlainCall::Issue(next_rank(book.last));
            compare_call(month, book, next, tally);
        }
    }
    compare_ending(month, book, tally);
}

// The memory that a month is lent, with what is brought in it.
#[derive(Drop)]
struct Memory {
    customers: Vec<Dated<PartyNumber>>,
    transmitters: Vec<Dated<PartyNumber>>,
    service: Vec<Dated<Service>>,
    rates: Vec<Dated<Rates>>,
    lines: Vec<Line>,
}

impl Memory {
    fn of(book: &Book) -> Memory {
        let heap = book.heap;
        let brought = &book.brought;
        Memory {
            customers: memory_of(heap, &brought.customers),
            transmitters: memory_of(heap, &brought.transmitters),
            service: memory_of(heap, &brought.service),
            rates: memory_of(heap, &brought.rates),
            lines: memory_of(heap, &brought.ledger),
        }
    }
}

// Opens the month over lent memory, takes it through the script, and closes it. The book, the script and the tally are handed on
// one by one, here and below: a struct of them would be made once, of two borrows, and taken apart here.
fn settle<S: SheetStore + Drop, H: HourRule + Drop>(
    setup: MonthSetup,
    store: S,
    rule: H,
    book: &mut Book,
    script: Script,
    tally: &mut Tally,
) {
    let mut memory = Memory::of(book);
    let brought = &book.brought;
    let histories = MonthHistories {
        customers: History::over(memory.customers.as_mut_slice(), brought.customers.used),
        transmitters: History::over(
            memory.transmitters.as_mut_slice(),
            brought.transmitters.used,
        ),
        service: History::over(memory.service.as_mut_slice(), brought.service.used),
        rates: History::over(memory.rates.as_mut_slice(), brought.rates.used),
    };
    let ledger = Ledger::over(memory.lines.as_mut_slice(), brought.ledger.used);
    let mut month = setup.open(store, rule, histories, ledger);
    compare_calls(&mut month, book, script, tally);
    compare_all(month.close().questions(), book, tally);
}

// Over the hour rule that is brought. A month that cannot be made was not set up.
fn settle_by_rule<S: SheetStore + Drop>(
    setup: MonthSetup,
    store: S,
    book: &mut Book,
    script: Script,
    tally: &mut Tally,
) {
    let month = book.month;
    let made = Calendar::new(month.year, month.month, month.holidays, month.summer);
    let Ok(calendar) = made else {
        return;
    };
    let calendar = &calendar;
    match book.brought.rule {
        RuleKind::PeakPeriod => settle(setup, store, PeakPeriod { calendar }, book, script, tally),
        RuleKind::WholeMonth => settle(setup, store, WholeMonth { calendar }, book, script, tally),
        RuleKind::EveryThirdHour => {
            let days = calendar.days();
            settle(setup, store, EveryThirdHour { days }, book, script, tally)
        }
    }
}

// Over the store that is brought.
fn settle_by_store(setup: MonthSetup, book: &mut Book, script: Script, tally: &mut Tally) {
    let plan = book.brought.store;
    match plan.kind {
        StoreKind::Rows => {
            let mut rows = filled(book.heap, Row::EMPTY, plan.places);
            let store = RowStore::new(rows.as_mut_slice(), plan.points, plan.days);
            settle_by_rule(setup, store, book, script, tally);
        }
        StoreKind::FullTable => {
            let mut words = filled(book.heap, 5, plan.places);
            let store = FullTable::new(words.as_mut_slice(), plan.points, plan.days);
            settle_by_rule(setup, store, book, script, tally);
        }
    }
}

// Makes a month on both sides; the library's, if there is one.
pub fn compare_making(month: PlainMonth, tally: &mut Tally) -> Option<MonthSetup> {
    let made = MonthSetup::new(month.year, month.month, month.holidays, month.summer);
    let library = made.as_ref().map(|_| ()).map_err(|refusal| *refusal);
    tally.compare(Matter::Making, library, judge_month(month));
    made.ok()
}

// Makes the book's month, declares its points, and takes it through the script; all on both sides.
pub fn settle_month(
    book: &mut Book,
    declarations: &[PlainPoint],
    script: Script,
    tally: &mut Tally,
) {
    let Some(mut setup) = compare_making(book.month, tally) else {
        return;
    };
    let mut declared: usize = 0;
    for point in declarations {
        let number = setup.declare_point((*point).into());
        let second = judge_point(declared, *point);
        tally.compare(Matter::Declaring, number, second);
        declared = second.unwrap_or(declared);
    }
    settle_by_store(setup, book, script, tally);
}
