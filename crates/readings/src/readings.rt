// What holds readings, and what takes sheets.
ghost use Rattle.std.specs.Prelude.{◌≡◌, is_some};
ghost use Rattle.readings.specs.Meaning.{Meaning, Sound, reading_at, verdict, after_post};

use tariff::reading::{Reading, Sheet};
use tariff::refusal::Refusal;

pub trait Readings {
    ghost meaning: { Self → Meaning };

    fn points(&self) -> u32
        ensures { result ≡ (meaning self.now).points };

    fn days(&self) -> u32
        ensures { result ≡ (meaning self.now).days };

    // False outside the points and days too.
    fn has_sheet(&self, point: u32, day: u32) -> bool
        ensures { result ≡ is_some ((meaning self.now).sheets point day) };

    // The reading of an hour from 1 to 24, where there is a sheet.
    fn reading(&self, point: u32, day: u32, hour: u32) -> Option<Reading>
        ensures { result ≡ reading_at (meaning self.now) point day hour };

    // No sheet lies outside the points and days, and each has 24 readings within the limit.
    ghost sound: { (s : Self) → Sound (meaning s) };
}

pub trait SheetStore: Readings {
    // Takes a sheet in the place of an earlier one for its point and day. Refuses an unknown point,
    // then an unknown day, then the first hour whose quantity is above the limit; all is then as before.
    fn post(&mut self, sheet: Sheet) -> Result<(), Refusal>
        ensures result { result ≡ verdict (Self.Readings.meaning self.old) sheet }
        ensures after { Self.Readings.meaning self.new ≡ after_post (Self.Readings.meaning self.old) sheet };
}
