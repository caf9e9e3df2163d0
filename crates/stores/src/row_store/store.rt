// What the rows do.
ghost use Rattle.std.specs.Prelude.{◌≡◌, ◌*◌, length, is_ok, if◌then◌else◌, slice_set};
ghost use Rattle.readings.specs.Meaning.{verdict, after_post};
ghost use Rattle.stores.specs.Room.{room_judged, newly_made};
ghost use Rattle.stores.specs.Rows.{matches, place_of, row_of};
ghost use Rattle.stores.specs.Stores.{rows_of, used_rows};
ghost use Rattle.stores.specs.RowLaws.{rows_sound};

use super::{Row, RowStore};
use crate::extent::Extent;
use crate::room::check_room;
use readings::readings::{Readings, SheetStore};
use tariff::reading::{Reading, Sheet, check_sheet};
use tariff::refusal::Refusal;

impl Row {
    fn is_for(&self, point: u32, day: u32) -> bool
        ensures { result ≡ matches point day self.now }
    {
        (point, day) == (self.point, self.day)
    }
}

// Where the row of a point and day stands: past the end where there is none.
fn find_row(rows: &[Row], point: u32, day: u32) -> usize
    ensures { result ≡ place_of point day rows.now }
{
    rows.iter()
        .position(|row| row.is_for(point, day))
        .unwrap_or(rows.len())
}

impl<'a> RowStore<'a> {
    // Where the row of a point and day stands among those used, or the first that is not used.
    fn find(&self, point: u32, day: u32) -> usize
        ensures { result ≡ place_of point day (used_rows self.now) }
    {
        find_row(&self.rows[..self.used], point, day)
    }

    // Whether the rows are enough for a month of the points.
    pub fn check(points: u32, days: u32, memory_len: usize) -> Result<(), Refusal>
        ensures { result ≡ room_judged points days (points * days) memory_len }
    {
        check_room(points, days, 1, memory_len)
    }

    // A store with no sheet, of no points and no days where the check refuses.
    pub fn new(memory: &'a mut [Row], points: u32, days: u32) -> RowStore<'a>
        ensures holds { rows_of result ≡ newly_made points days (points * days) (length memory.old) }
        ensures rows { result.rows.now ≡ memory.old }
        ensures used { result.used ≡ 0 }
        ensures lender { result.rows.ghost_name ≡ memory.entry.ghost_name }
    {
        if RowStore::check(points, days, memory.len()).is_err() {
            return RowStore {
                extent: Extent::NONE,
                used: 0,
                rows: memory,
            };
        }
        RowStore {
            extent: Extent { points, days },
            used: 0,
            rows: memory,
        }
    }
}

impl<'a> Readings for RowStore<'a> {
    ghost meaning = { rows_of };

    ghost sound = { λ s. rows_sound s.extent.points s.extent.days (used_rows s) (used_rows s) s.ok };

    fn points(&self) -> u32 {
        self.extent.points
    }

    fn days(&self) -> u32 {
        self.extent.days
    }

    fn has_sheet(&self, point: u32, day: u32) -> bool {
        self.find(point, day) < self.used
    }

    fn reading(&self, point: u32, day: u32, hour: u32) -> Option<Reading> {
        let i = self.find(point, day);
        if i >= self.used || !(1..=24).contains(&hour) {
            return None;
        }
        Some(self.rows[i].readings[(hour - 1) as usize])
    }
}

impl<'a> SheetStore for RowStore<'a> {
    // Where the sheet is taken, one row is written, and no other changes: that of an earlier sheet for its
    // point and day, or else the first that is not used.
    fn post(&mut self, sheet: Sheet) -> Result<(), Refusal>
        ensures result { result ≡ verdict (rows_of self.old) sheet }
        ensures after { rows_of self.new ≡ after_post (rows_of self.old) sheet }
        ensures rows { self.new.rows.now ≡ (if is_ok result then slice_set self.old.rows.now (place_of sheet.point sheet.day (used_rows self.old)) (row_of sheet) else self.old.rows.now) }
        ensures lender { self.new.rows.ghost_name ≡ self.old.rows.ghost_name }
    {
        check_sheet(self.extent.points, self.extent.days, &sheet)?;
        let i = self.find(sheet.point, sheet.day);
        self.rows[i] = Row {
            point: sheet.point,
            day: sheet.day,
            readings: sheet.readings,
        };
        self.used = self.used.max(i + 1);
        Ok(())
    }
}
