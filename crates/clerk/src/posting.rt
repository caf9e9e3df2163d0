// A sheet file, posted to an open month.
ghost use Rattle.sheet_file.specs.Files.{left_of};
ghost use Rattle.month.specs.States.{state_of};
ghost use Rattle.clerk.specs.Posting.{PostsNext};

use crate::answers::{Answer, make_call, sheet_call};
use hours::rules::HourRule;
use month::month::OpenMonth;
use readings::readings::SheetStore;
use sheet_file::file::SheetReader;
use tariff::refusal::Refusal;

// Reads the next line of a file and posts its sheet; None at the file's end. A line that is no sheet changes nothing.
pub fn post_next<S: SheetStore, H: HourRule>(
    month: &mut OpenMonth<S, H>,
    file: &mut SheetReader,
) -> Option<Result<Answer, Refusal>>
    ensures { PostsNext (left_of file.old) (state_of S.Readings.meaning H.HourRule.admits month.old) result (left_of file.new) (state_of S.Readings.meaning H.HourRule.admits month.new) }
{
    let outcome = file.next()?;
    Some(make_call(month, sheet_call(outcome)))
}
