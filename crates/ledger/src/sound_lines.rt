// The lines in use of a sound ledger.
ghost use Rattle.std.specs.Prelude.{◌≡◌, ◌≤◌, true, length};
ghost use Rattle.ledger.specs.Lines.{every, sound_line};

use crate::line::Line;

mod entries;
mod reading;

// Every number of the lines is in its range, and they are no more than a ledger may have.
#[derive(Clone, Copy)]
pub(crate) struct SoundLines<'a> {
    lines: &'a [Line],
    ghost sound: { every sound_line lines.now ≡ true },
    ghost short: { length lines.now ≤ 100000 },
}
