// What the table does.
ghost use Rattle.std.specs.Prelude.{◌≡◌, ◌+◌, ◌*◌, ◌≤◌, ◌&&◌, map, length, replicate, IfSome, is_ok, if◌then◌else◌, Some, None};
ghost use Rattle.std.specs.List.{AllByRecursion};
ghost use Rattle.tariff.specs.Ranges.{within};
ghost use Rattle.tariff.specs.Readings.{Allowed};
ghost use Rattle.readings.specs.Meaning.{verdict, after_post};
ghost use Rattle.stores.specs.Room.{room_judged, newly_made};
ghost use Rattle.stores.specs.TableLaws.{table_sound};
ghost use Rattle.stores.specs.Words.{encoded, decoded, offset, with_day};
ghost use Rattle.stores.specs.Stores.{table_of, words_of};

use super::FullTable;
use crate::extent::Extent;
use crate::room::check_room;
use readings::readings::{Readings, SheetStore};
use tariff::reading::{Reading, Sheet, check_sheet};
use tariff::refusal::Refusal;

// The number that stands where there is no reading. A day without a sheet is known by its first number.
const MISSING: u32 = u32::MAX;

// The numbers of injections begin here; those of withdrawals lie below.
const INJECTIONS: u32 = 100_000_000;

// A withdrawal is kept as its quantity, an injection as that much above the numbers of withdrawals.
fn encode(reading: Reading) -> u32
    requires { Allowed reading }
    ensures { result ≡ encoded reading }
{
    match reading {
        Reading::Withdrawal(quantity) => quantity,
        Reading::Injection(quantity) => quantity + INJECTIONS,
    }
}

// Any number is read as a reading within the limit.
fn decode(word: u32) -> Reading
    ensures { result ≡ decoded word }
{
    if word < INJECTIONS {
        Reading::Withdrawal(word)
    } else {
        Reading::Injection(word % INJECTIONS)
    }
}

impl<'a> FullTable<'a> {
    // Whether the memory is enough for a month of the points.
    pub fn check(points: u32, days: u32, memory_len: usize) -> Result<(), Refusal>
        ensures { result ≡ room_judged points days (points * days * 24) memory_len }
    {
        check_room(points, days, 24, memory_len)
    }

    // A store with no sheet, of no points and no days where the check refuses.
    pub fn new(memory: &'a mut [u32], points: u32, days: u32) -> FullTable<'a>
        ensures holds { table_of result ≡ newly_made points days (points * days * 24) (length memory.old) }
        ensures words { words_of result ≡ (if is_ok (room_judged points days (points * days * 24) (length memory.old)) then replicate (length memory.old) 4294967295 else memory.old) }
    {
        if FullTable::check(points, days, memory.len()).is_err() {
            return FullTable {
                extent: Extent::NONE,
                words: memory,
            };
        }
        clear(memory);
        FullTable {
            extent: Extent { points, days },
            words: memory,
        }
    }

    // Where the numbers of a day begin.
    fn find(&self, point: u32, day: u32) -> Option<usize>
        ensures value { result ≡ (if within self.now.extent.points point && within self.now.extent.days day then Some (offset self.now.extent.days point day) else None) }
        ensures bound { IfSome result (λ o. o + 24 ≤ length (words_of self.now)) }
    {
        if !self.extent.has(point, day) {
            return None;
        }
        Some(((point - 1) as usize * self.extent.days as usize + (day - 1) as usize) * 24)
    }
}

// Marks every reading as missing.
fn clear(words: &mut [u32])
    ensures { words.new ≡ replicate (length words.old) 4294967295 }
{
    words.fill(MISSING);
}

// Writes a day's readings over 24 numbers.
fn write_day(words: &mut [u32], readings: &[Reading; 24])
    requires { (length words.old ≡ 24) × (AllByRecursion Allowed readings.now) }
    ensures { words.new ≡ map encoded readings.now }
{
    for (i, reading) in readings.iter().enumerate() {
        words[i] = encode(*reading);
    }
}

// Writes a day's readings over the 24 numbers from `start` on.
fn store_day(words: &mut [u32], start: usize, readings: &[Reading; 24])
    requires { (start + 24 ≤ length words.old) × (AllByRecursion Allowed readings.now) }
    ensures { words.new ≡ with_day words.old start readings.now }
{
    write_day(&mut words[start..start + 24], readings);
}

impl<'a> Readings for FullTable<'a> {
    ghost meaning = { table_of };

    ghost sound = { λ s. table_sound s.extent.points s.extent.days (words_of s) s.fits };

    fn points(&self) -> u32 {
        self.extent.points
    }

    fn days(&self) -> u32 {
        self.extent.days
    }

    fn has_sheet(&self, point: u32, day: u32) -> bool {
        self.find(point, day)
            .is_some_and(|start| self.words[start] != MISSING)
    }

    fn reading(&self, point: u32, day: u32, hour: u32) -> Option<Reading> {
        let start = self.find(point, day)?;
        if self.words[start] == MISSING || !(1..=24).contains(&hour) {
            return None;
        }
        Some(decode(self.words[start + (hour - 1) as usize]))
    }
}

impl<'a> SheetStore for FullTable<'a> {
    // Where the sheet is taken, the 24 numbers of its day are written, and no other changes.
    fn post(&mut self, sheet: Sheet) -> Result<(), Refusal>
        ensures result { result ≡ verdict (table_of self.old) sheet }
        ensures after { table_of self.new ≡ after_post (table_of self.old) sheet }
        ensures words { words_of self.new ≡ (if is_ok result then with_day (words_of self.old) (offset self.old.extent.days sheet.point sheet.day) sheet.readings else words_of self.old) }
    {
        check_sheet(self.extent.points, self.extent.days, &sheet)?;
        if let Some(start) = self.find(sheet.point, sheet.day) {
            store_day(self.words, start, &sheet.readings);
        }
        Ok(())
    }
}
