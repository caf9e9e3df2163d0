// The lines that a statement adds to a ledger, one by one.
ghost use Rattle.std.specs.Prelude.{◌≤◌, length};

use crate::due::Due;
use crate::sound_lines::SoundLines;
use tariff::statement::Statement;

mod walk;

pub(crate) use walk::{count_lines, write_lines};

// What is left to walk: the accounts of the first due from a place on, and the dues after it.
#[derive(Drop)]
pub(crate) struct NewLines<'a> {
    lines: SoundLines<'a>,
    statement: Statement,
    dues: &'a [Due],
    place: usize,
    ghost inside: { place ≤ length lines.lines.now },
}
