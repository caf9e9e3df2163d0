// The months of the rehearsal. Each is made from its own number.
use crate::comparing::accounts;
use crate::generator::brought::{bare, with_contents};
use crate::generator::calls::{other_order, some_calls, some_sheet};
use crate::generator::dice::Dice;
use crate::generator::months::{
    any_month, faulty_point, some_declarations, some_month, some_point, some_rule,
};
use crate::plain::{
    Matter, PlainCall, PlainMonth, PlainPoint, RF, RuleKind, StoreKind, StorePlan, put,
};
use crate::second::book::{Book, declared_points};
use crate::second::days::first_day;
use crate::second::owed::due_of;
use crate::second::taking::judge_store;
use crate::settling::{Script, Statements, compare_making, settle_month};
use crate::tally::Tally;
use crate::texts::compare_file;
use std::alloc::Global;
use stores::full_table::FullTable;
use stores::row_store::RowStore;

fn compare_room(store: StorePlan, tally: &mut Tally) {
    let checked = match store.kind {
        StoreKind::Rows => RowStore::check(store.points, store.days, store.places),
        StoreKind::FullTable => FullTable::check(store.points, store.days, store.places),
    };
    tally.compare(Matter::Room, checked, judge_store(store));
}

fn count_points(heap: Global, declarations: &[PlainPoint]) -> u32 {
    let points = declared_points(heap, declarations);
    u32::try_from(points.len()).unwrap_or(0)
}

// Once RF was issued at the end, every account's total is what it is due.
fn compare_dues(book: &Book, tally: &mut Tally) {
    if book.last != Some(RF) {
        return;
    }
    let dues = book.dues();
    let accounts = accounts(book);
    for (account, total) in accounts.iter().zip(book.totals.iter()) {
        let due = due_of(dues.as_slice(), *account);
        tally.compare(Matter::TotalAndDue, *total, due);
    }
}

// With a statement tried after every sheet.
pub fn settle_eagerly(
    book: &mut Book,
    declarations: &[PlainPoint],
    calls: &[PlainCall],
    tally: &mut Tally,
) {
    let script = Script {
        calls,
        statements: Statements::AfterEverySheet,
    };
    settle_month(book, declarations, script, tally);
}

// With what was accepted in another order, and the statements at the end.
pub fn settle_at_the_end(
    book: &mut Book,
    declarations: &[PlainPoint],
    history: &[PlainCall],
    tally: &mut Tally,
) {
    let calls = other_order(book.heap, history);
    let script = Script {
        calls: calls.as_slice(),
        statements: Statements::AtTheEnd,
    };
    settle_month(book, declarations, script, tally);
}

// Where both orders came to RF, the totals of all accounts are the same.
pub fn compare_orders(book: &Book, again: &Book, tally: &mut Tally) {
    if book.last != Some(RF) || again.last != Some(RF) {
        return;
    }
    for (first, second) in book.totals.iter().zip(again.totals.iter()) {
        tally.compare(Matter::TotalsOfBothOrders, *first, *second);
    }
    tally.both_orders = tally.both_orders.saturating_add(1);
}

// A month that starts bare, in both orders.
pub fn rehearse_bare(heap: Global, number: u64, tally: &mut Tally) {
    tally.begin_month();
    let mut dice = Dice::new(number);
    for _ in 0..3 {
        let _ = compare_making(any_month(&mut dice), tally);
    }
    let month = some_month(&mut dice);
    let declarations = some_declarations(heap, &mut dice, 5);
    let declarations = declarations.as_slice();
    let points = count_points(heap, declarations);
    let few = dice.roll(11) as usize;
    let places = if dice.one_in(3) { few } else { 40 };
    let rule = some_rule(&mut dice);
    let brought = bare(heap, &mut dice, month, points, places, rule);
    let mut book = Book::new(heap, month, declarations, brought);
    let changes = dice.roll(24);
    let mut calls = some_calls(heap, &mut dice, &book, changes);
    compare_file(&book, &mut dice, &mut calls, tally);
    settle_eagerly(&mut book, declarations, calls.as_slice(), tally);
    compare_dues(&book, tally);
    let brought = bare(heap, &mut dice, month, points, places, rule);
    let mut again = Book::new(heap, month, declarations, brought);
    settle_at_the_end(&mut again, declarations, book.history.as_slice(), tally);
    compare_dues(&again, tally);
    compare_orders(&book, &again, tally);
}

// A month over memory with contents; the same of the same number.
fn book_with_contents(
    heap: Global,
    number: u64,
    month: PlainMonth,
    declarations: &[PlainPoint],
) -> Book {
    let mut dice = Dice::new(number.wrapping_mul(2));
    let points = count_points(heap, declarations);
    let from_day = first_day(month.year, month.month).saturating_sub(2);
    let brought = with_contents(heap, &mut dice, month, points, from_day);
    Book::new(heap, month, declarations, brought)
}

// A month that is opened over memory with contents, some of them unsound, and over a store that may not fit; in both orders.
pub fn rehearse_contents(heap: Global, number: u64, tally: &mut Tally) {
    tally.begin_month();
    let mut dice = Dice::new(number);
    let month = some_month(&mut dice);
    let declarations = some_declarations(heap, &mut dice, 2);
    let declarations = declarations.as_slice();
    let mut book = book_with_contents(heap, number, month, declarations);
    compare_room(book.brought.store, tally);
    let calls = some_calls(heap, &mut dice, &book, 10);
    settle_eagerly(&mut book, declarations, calls.as_slice(), tally);
    let mut again = book_with_contents(heap, number, month, declarations);
    settle_at_the_end(&mut again, declarations, book.history.as_slice(), tally);
    compare_orders(&book, &again, tally);
}

// 401 points, and one of a kind that there is not.
fn many_declarations(heap: Global, dice: &mut Dice) -> Vec<PlainPoint> {
    let mut declarations = Vec::new(heap);
    for _ in 0..401 {
        put(&mut declarations, some_point(dice));
    }
    put(&mut declarations, faulty_point(dice));
    declarations
}

// A sheet of the last point, of none, and of the first.
fn few_sheets(heap: Global, dice: &mut Dice) -> Vec<PlainCall> {
    let mut calls = Vec::new(heap);
    for point in [400, 401, 1] {
        put(&mut calls, PlainCall::Post(some_sheet(dice, point, 1)));
    }
    calls
}

// A month with 400 points; more are refused, whether of a kind that there is or not.
pub fn rehearse_many_points(heap: Global, tally: &mut Tally) {
    tally.begin_month();
    let mut dice = Dice::new(400);
    let month = some_month(&mut dice);
    let declarations = many_declarations(heap, &mut dice);
    let calls = few_sheets(heap, &mut dice);
    let brought = bare(heap, &mut dice, month, 400, 3, RuleKind::PeakPeriod);
    let mut book = Book::new(heap, month, declarations.as_slice(), brought);
    settle_eagerly(&mut book, declarations.as_slice(), calls.as_slice(), tally);
}
