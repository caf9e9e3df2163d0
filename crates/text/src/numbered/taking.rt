// Lines are taken from the front. The first has number 1.
ghost use Rattle.std.specs.Prelude.{◌≡◌};
ghost use Rattle.std.specs.Iterator.{YieldsFirstBy, item_count};
ghost use Rattle.text.specs.Format.{lines};
ghost use Rattle.text.specs.Laws.{Lines-stand};
ghost use Rattle.text.specs.Numbered.{numbered, lines_in};

use super::Lines;
use crate::cuts::cut;

impl<'a> Lines<'a> {
    pub fn new(text: &'a [u8]) -> Lines<'a>
        ensures left { lines_in result ≡ numbered 0 (lines text.now) }
        ensures stands { Lines-stand text.now }
    {
        Lines {
            rest: text,
            number: 0,
        }
    }
}

// A line's number and its text; None at the text's end.
impl<'a> Iterator for Lines<'a> {
    type Item = (u64, &'a [u8]);

    ghost next_gives = { YieldsFirstBy (λ l. (l.0, l.1.now)) lines_in };

    ghost remaining = { item_count lines_in };

    fn next(&mut self) -> Option<(u64, &'a [u8])> {
        if self.rest.is_empty() {
            return None;
        }
        let (text, others) = cut(self.rest, b'\n');
        self.rest = others;
        self.number += 1;
        Some((self.number, text))
    }
}
