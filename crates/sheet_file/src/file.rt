// The sheets of a file, one for each line. A refused line is passed over.
ghost use Rattle.std.specs.Prelude.{◌≡◌};
ghost use Rattle.std.specs.Iterator.{YieldsFirst, item_count};
ghost use Rattle.text.specs.Format.{lines};
ghost use Rattle.text.specs.Laws.{Lines-stand};
ghost use Rattle.sheet_file.specs.Files.{outcome, outcomes, left_of};

use crate::faults::FileFault;
use crate::line::sheet_of;
use tariff::reading::Sheet;
use text::numbered::Lines;

// What is left of a file after some of its lines.
#[derive(Drop)]
pub struct SheetReader<'a> {
    lines: Lines<'a>,
}

// Reads the line of number `line`, as one of a file: its sheet, or why it is refused.
pub fn read_line(line: u64, text: &[u8]) -> Result<Sheet, FileFault>
    ensures { result ≡ outcome line text.now }
{
    Ok(sheet_of(line, text)?)
}

impl<'a> SheetReader<'a> {
    pub fn new(file: &'a [u8]) -> SheetReader<'a>
        ensures left { left_of result ≡ outcomes 0 (lines file.now) }
        ensures stands { Lines-stand file.now }
    {
        SheetReader {
            lines: Lines::new(file),
        }
    }
}

// Each call reads one line: its sheet, or why it is refused. None at the file's end.
impl<'a> Iterator for SheetReader<'a> {
    type Item = Result<Sheet, FileFault>;

    ghost next_gives = { YieldsFirst left_of };

    ghost remaining = { item_count left_of };

    fn next(&mut self) -> Option<Result<Sheet, FileFault>> {
        let (line, text) = self.lines.next()?;
        Some(read_line(line, text))
    }
}
