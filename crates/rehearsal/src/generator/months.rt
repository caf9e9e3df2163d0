// Months and the points that they settle.
use super::dice::Dice;
use crate::plain::{PlainMonth, PlainPoint, RuleKind, put};
use crate::second::days::days_in;
use std::alloc::Global;

const YEARS: [u32; 8] = [2000, 2001, 2004, 2023, 2024, 2050, 2096, 2099];

// Months that there are and that there are not.
const ANY_YEARS: [u32; 6] = [0, 1999, 2000, 2024, 2099, 2100];

const ANY_MONTHS: [u32; 6] = [0, 1, 2, 4, 12, 13];

const ANY_MARKS: [u32; 7] = [
    0,
    1,
    0x0fff_ffff,
    0x1000_0000,
    0x3fff_ffff,
    0x4000_0000,
    0x8000_0001,
];

// A mask with every day of the month.
fn all_days(year: u32, month: u32) -> u32 {
    match days_in(year, month) {
        28 => 0x0fff_ffff,
        29 => 0x1fff_ffff,
        30 => 0x3fff_ffff,
        _ => 0x7fff_ffff,
    }
}

// A month of the years 2000 to 2099, with few holidays, and with summer on none, all, or the first or last days.
pub fn some_month(dice: &mut Dice) -> PlainMonth {
    let year = dice.pick(&YEARS);
    let month = if dice.one_in(4) { 2 } else { dice.one_to(12) };
    let all = all_days(year, month);
    let holidays = dice.roll(u32::MAX) & dice.roll(u32::MAX) & dice.roll(u32::MAX);
    let summer = dice.pick(&[0, u32::MAX, 0x0000_0fff, 0xffff_f000]);
    PlainMonth {
        year,
        month,
        holidays: holidays & all,
        summer: summer & all,
    }
}

// A month that is refused more often than not.
pub fn any_month(dice: &mut Dice) -> PlainMonth {
    PlainMonth {
        year: dice.pick(&ANY_YEARS),
        month: dice.pick(&ANY_MONTHS),
        holidays: dice.pick(&ANY_MARKS),
        summer: dice.pick(&ANY_MARKS),
    }
}

pub fn some_rule(dice: &mut Dice) -> RuleKind {
    match dice.roll(4) {
        0 => RuleKind::WholeMonth,
        1 => RuleKind::EveryThirdHour,
        _ => RuleKind::PeakPeriod,
    }
}

// A point of one of the four kinds: network, or connection with a mark for line, transformation or both.
pub fn some_point(dice: &mut Dice) -> PlainPoint {
    let (letter, line, transformation) = match dice.roll(5) {
        0 => (b'C', true, false),
        1 => (b'C', false, true),
        2 => (b'C', true, true),
        _ => (b'N', false, false),
    };
    PlainPoint {
        letter,
        line,
        transformation,
    }
}

// A point that is refused: of another kind, N with marks, or C without.
pub fn faulty_point(dice: &mut Dice) -> PlainPoint {
    let marked = dice.one_in(2);
    let letter = match (dice.roll(3), marked) {
        (0, true) => b'N',
        (0, false) => b'C',
        (1, _) => b'c',
        _ => b'X',
    };
    PlainPoint {
        letter,
        line: marked,
        transformation: marked && dice.one_in(2),
    }
}

// What is declared: up to `most` points, some of them after one that is refused.
pub fn some_declarations(heap: Global, dice: &mut Dice, most: u32) -> Vec<PlainPoint> {
    let mut points = Vec::new(heap);
    for _ in 0..dice.roll(most.saturating_add(1)) {
        if dice.one_in(5) {
            put(&mut points, faulty_point(dice));
        }
        put(&mut points, some_point(dice));
    }
    points
}
