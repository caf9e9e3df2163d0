// How sound lines are told from others, and what they add up to.
ghost use Rattle.std.specs.Prelude.{◌≡◌, ◌≤◌, ◌&&◌, pos, negsuc, ◌≤ℤ◌, length, cond, nat_le, Some, None, if◌then◌else◌};
ghost use Rattle.std.specs.Option.{option_map};
ghost use Rattle.ledger.specs.Lines.{every, sound_line};
ghost use Rattle.ledger.specs.Sums.{cents_of};
ghost use Rattle.ledger.specs.Walks.{lines_of};

use super::SoundLines;
use crate::choices::Selects;
use crate::line::{Line, MAX_LINES};

fn are_sound(lines: &[Line]) -> bool
    ensures { result ≡ every sound_line lines.now }
{
    lines.iter().all(|line| line.is_sound())
}

fn cents_if<S: Selects>(line: &Line, which: &S) -> i64
    ensures { result ≡ (if S.chosen which.now line.now then line.now.cents else pos 0) }
{
    if which.selects(line) { line.cents } else { 0 }
}

impl<'a> SoundLines<'a> {
    // None if there are more than a ledger may have, or a number is out of its range.
    pub(crate) fn new(lines: &'a [Line]) -> Option<SoundLines<'a>>
        ensures { option_map lines_of result ≡ cond (nat_le (length lines.now) 100000 && every sound_line lines.now) (Some lines.now) None }
    {
        if lines.len() > MAX_LINES || !are_sound(lines) {
            return None;
        }
        Some(SoundLines { lines })
    }
}

impl SoundLines<'_> {
    pub(crate) fn len(&self) -> usize
        ensures { result ≡ length self.now.lines.now }
    {
        self.lines.len()
    }

    // The sum of the cents of the lines that `which` selects; a hundred thousand sound lines cannot overflow.
    pub(crate) fn cents<S: Selects>(&self, which: &S) -> i64
        ensures value { result ≡ cents_of (S.chosen which.now) self.now.lines.now }
        ensures bound { (result ≤ℤ pos 999999990000000) × (negsuc 999999989999999 ≤ℤ result) }
    {
        let lines = self.lines;
        let mut sum: i64 = 0;
        // A loop, since `sum` has no bound for signed numbers.
        for line in lines {
            sum += cents_if(line, which);
        }
        sum
    }
}
