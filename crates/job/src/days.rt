// Lists of days, as 1,5,22-24.
ghost use Rattle.std.specs.Prelude.{◌≡◌, None, MatchOption};
ghost use Rattle.text.specs.Format.{parts};
ghost use Rattle.job.specs.Days.{names, range_of, ranges_of, Marks};
ghost use Rattle.job.specs.Masks.{days_of};

use crate::numbers::whole;
use calendar::marks::{DayRule, mask_of};
use text::cuts::cut;
use text::walk::Parts;

// A day that no month has. It stands for every day that is not from 1 to 31, so that a calendar refuses it.
const NO_SUCH_DAY: u32 = 32;

// The first and the last of some days.
#[derive(Clone, Copy)]
pub(crate) struct DayRange {
    first: u32,
    last: u32,
}

impl DayRule for DayRange {
    ghost picks = { names };

    fn picks_day(&self, day: u32) -> bool {
        if day == NO_SUCH_DAY {
            self.first < 1 || self.last > 31
        } else {
            (self.first..=self.last).contains(&day)
        }
    }
}

// One part of a list: a day, or the first and the last of some days with a hyphen between.
fn range_of(part: &[u8]) -> Option<DayRange>
    ensures { result ≡ range_of part.now }
{
    let (text, others) = cut(part, b'-');
    let first = whole(text)?;
    if text.len() == part.len() {
        return Some(DayRange { first, last: first });
    }
    let last = whole(others)?;
    (first <= last).then_some(DayRange { first, last })
}

// The days of a list, a bit for each, the lowest for day 1; None where the text is no list of days.
#[tactic(auto, using(crate::proofs::Naming::one_more))]
pub fn day_mask(list: &[u8]) -> Option<u32>
    ensures { MatchOption result (ranges_of (parts 44 list.now) ≡ None) (Marks (ranges_of (parts 44 list.now))) }
{
    let mut mask = 0;
    for part in Parts::new(list, b',') {
        let range = range_of(part)?;
        mask |= mask_of(&range, NO_SUCH_DAY);
    }
    Some(mask)
}

// The marked days of a list, or none of an empty text.
pub fn days_of(text: &[u8]) -> Option<u32>
    ensures { result ≡ days_of text.now }
{
    if text.is_empty() {
        return Some(0);
    }
    day_mask(text)
}
