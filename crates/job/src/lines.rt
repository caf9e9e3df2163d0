// A job's lines, one after another, with their numbers, and which of them are calls.
ghost use Rattle.std.specs.Prelude.{◌≡◌};
ghost use Rattle.std.specs.Iterator.{YieldsFirstBy, item_count};
ghost use Rattle.text.specs.Format.{lines};
ghost use Rattle.text.specs.Numbered.{numbered};
ghost use Rattle.job.specs.Lines.{is_blank, is_call, lines_left, line_of};

use text::numbered::Lines;

// A line of a job: its number, from 1, and its text.
#[derive(Clone, Copy)]
pub struct JobLine<'a> {
    pub number: u64,
    pub text: &'a [u8],
}

// What is left of a job after some of its lines.
#[derive(Drop)]
pub struct JobLines<'a> {
    lines: Lines<'a>,
}

// Whether a line has nothing but white space.
fn is_blank(text: &[u8]) -> bool
    ensures { result ≡ is_blank text.now }
{
    text.iter().all(|b| b.is_ascii_whitespace())
}

// Whether a line is to be read as a call: a blank line is not, nor one that begins with #.
pub fn is_call(text: &[u8]) -> bool
    ensures { result ≡ is_call text.now }
{
    match text {
        [b'#', ..] => false,
        _ => !is_blank(text),
    }
}

impl<'a> JobLines<'a> {
    pub fn new(job: &'a [u8]) -> JobLines<'a>
        ensures { lines_left result ≡ numbered 0 (lines job.now) }
    {
        JobLines {
            lines: Lines::new(job),
        }
    }
}

// The next line; None at the job's end.
impl<'a> Iterator for JobLines<'a> {
    type Item = JobLine<'a>;

    ghost next_gives = { YieldsFirstBy line_of lines_left };

    ghost remaining = { item_count lines_left };

    fn next(&mut self) -> Option<JobLine<'a>> {
        let (number, text) = self.lines.next()?;
        Some(JobLine { number, text })
    }
}
