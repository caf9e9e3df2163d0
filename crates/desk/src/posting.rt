// A file of sheets, posted to a store.
ghost use Rattle.std.specs.Prelude.{◌≡◌};
ghost use Rattle.text.specs.Format.{lines};
ghost use Rattle.sheet_file.specs.Files.{outcomes};
ghost use Rattle.desk.specs.Posting.{posted_outcome, posted_all};

use crate::words::tell;
use readings::readings::SheetStore;
use sheet_file::faults::FileFault;
use sheet_file::file::SheetReader;
use std::io::Write;
use tariff::reading::Sheet;
use tariff::refusal::Refusal;

// Posts what one line gives; a line that is no sheet, or whose sheet is refused, changes nothing.
fn post_outcome<S: SheetStore>(
    store: &mut S,
    outcome: Result<Sheet, FileFault>,
) -> Result<(), Refusal>
    ensures { S.Readings.meaning store.new ≡ posted_outcome (S.Readings.meaning store.old) outcome }
{
    let sheet = outcome?;
    store.post(sheet)
}

// Posts every sheet of a file, in its order, and tells of each line that is refused.
// Nothing that goes wrong with a line, or with telling of it, keeps the lines after it from being posted.
pub fn post_file<S: SheetStore, W: Write>(store: &mut S, file: &[u8], faults: &mut W)
    ensures { S.Readings.meaning store.new ≡ posted_all (S.Readings.meaning store.old) (outcomes 0 (lines file.now)) }
{
    // Zipped with the numbers from 1, the file would seem to end where the numbers do.
    let mut line: u64 = 0;
    for outcome in SheetReader::new(file) {
        line = line.saturating_add(1);
        if let Err(refusal) = post_outcome(store, outcome) {
            let _ = write!(faults, "demands: line {line}: ");
            let _ = tell(faults, refusal);
        }
    }
}
