// The parts of a text, taken one by one.
ghost use Rattle.std.specs.Prelude.{◌≡◌};
ghost use Rattle.std.specs.Iterator.{YieldsFirstRef, item_count};
ghost use Rattle.text.specs.Format.{parts};
ghost use Rattle.text.specs.Parting.{left_in};

use crate::cuts::cut;

// What is left of a text after some of its parts: nothing after the last.
// The library's `split` gives the same parts, but a loop over it cannot name what is left.
#[derive(Drop)]
pub struct Parts<'a> {
    rest: Option<&'a [u8]>,
    mark: u8,
}

impl<'a> Parts<'a> {
    pub fn new(text: &'a [u8], mark: u8) -> Parts<'a>
        ensures { left_in result ≡ parts mark text.now }
    {
        Parts {
            rest: Some(text),
            mark,
        }
    }
}

impl<'a> Iterator for Parts<'a> {
    type Item = &'a [u8];

    ghost next_gives = { YieldsFirstRef left_in };

    ghost remaining = { item_count left_in };

    fn next(&mut self) -> Option<&'a [u8]> {
        let rest = self.rest?;
        let (part, others) = cut(rest, self.mark);
        self.rest = (part.len() < rest.len()).then_some(others);
        Some(part)
    }
}
