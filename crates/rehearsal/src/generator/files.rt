// Sheet files, with faulty lines among them.
use super::calls::some_sheet;
use super::dice::Dice;
use crate::plain::{put, put_all};
use crate::second::written::sheet_line;
use std::alloc::Global;

const ODD_BYTES: &[u8] = b"09IWw| -\0\xff";

// Puts another byte into a line, or takes its end away.
fn spoil(dice: &mut Dice, line: &mut Vec<u8>) {
    let length = u32::try_from(line.len()).unwrap_or(0);
    let at = dice.roll(length) as usize;
    if dice.one_in(4) {
        line.truncate(at);
        return;
    }
    let odd = dice.pick(ODD_BYTES);
    if let Some(byte) = line.get_mut(at) {
        *byte = odd;
    }
}

// A file of a few lines, of which every other is spoilt. The last may lack its byte 10.
pub fn some_file(heap: Global, dice: &mut Dice, points: u32, days: u32) -> Vec<u8> {
    let mut text = Vec::new(heap);
    for _ in 0..dice.roll(6) {
        let point = dice.pick(&[1, points, 999_999_999, 1_000_000_000]);
        let day = dice.pick(&[1, 2, days, 99, 100]);
        let mut line = sheet_line(heap, &some_sheet(dice, point, day)).into_bytes();
        if dice.one_in(2) {
            spoil(dice, &mut line);
        }
        put_all(&mut text, line.as_slice());
        if dice.one_in(6) {
            put(&mut text, b'\n');
        }
    }
    text
}
