// How the lines come, how they are counted, and how they are written.
ghost use Rattle.std.specs.Prelude.{◌≡◌, ◌+◌, ◌≤◌, length};
ghost use Rattle.std.specs.Iterator.{YieldsFirst, item_count};
ghost use Rattle.ledger.specs.Dues.{all_facts};
ghost use Rattle.ledger.specs.Issues.{statement_lines};
ghost use Rattle.ledger.specs.Passes.{counted, written};
ghost use Rattle.ledger.specs.Walks.{lines_of, to_come};

use super::NewLines;
use crate::due::Due;
use crate::line::{Line, MAX_LINES, is_small};
use crate::sound_lines::SoundLines;
use tariff::statement::Statement;

impl<'a> NewLines<'a> {
    pub(crate) fn new(lines: SoundLines<'a>, statement: Statement, dues: &'a [Due]) -> NewLines<'a>
        ensures { to_come result ≡ statement_lines statement (lines_of lines.entry) (all_facts dues.now) }
    {
        NewLines {
            lines,
            statement,
            dues,
            place: 0,
        }
    }
}

impl Iterator for NewLines<'_> {
    type Item = Line;

    ghost next_gives = { YieldsFirst to_come };

    ghost remaining = { item_count to_come };

    fn next(&mut self) -> Option<Line> {
        while let Some((due, others)) = self.dues.split_first() {
            for place in self.place..self.lines.len() {
                let line = self.lines.line_at(self.statement, due, place);
                if line.is_some() {
                    self.place = place + 1;
                    return line;
                }
            }
            self.place = 0;
            self.dues = others;
            let line = self.lines.line_at(self.statement, due, self.lines.len());
            if line.is_some() {
                return line;
            }
        }
        None
    }
}

// How many lines there are, counted no further than one past the limit; None if an increment is too large.
pub(crate) fn count_lines(lines: NewLines) -> Option<usize>
    ensures { result ≡ counted 0 (to_come lines.entry) }
{
    let mut count = 0;
    for line in lines {
        if !is_small(line.cents) {
            return None;
        }
        if count <= MAX_LINES {
            count += 1;
        }
    }
    Some(count)
}

// Writes the lines to the front of `room`.
pub(crate) fn write_lines(lines: NewLines, room: &mut [Line])
    requires { length (to_come lines) ≤ length room.old }
    ensures { room.new ≡ written room.old 0 (to_come lines.entry) }
{
    for (at, line) in lines.enumerate() {
        room[at] = line;
    }
}
