// The ranges that the entries of a history have to keep.
ghost use Rattle.std.specs.Prelude.{◌≡◌, Bool, true};
ghost use Rattle.tariff.specs.Parties.{party_in_range, rates_in_range};
ghost use Rattle.records.specs.Soundness.{in_range, all_in_range};

use crate::dated::Dated;
use tariff::parties::{PartyNumber, Rates, Service};

// The last from-day, 31 December 2099.
pub const LAST_FROM_DAY: u32 = 36_524;

// An item with a range of its own.
pub trait Ranged {
    ghost ranged: { Self → Bool };

    fn is_ranged(&self) -> bool
        ensures { result ≡ ranged self.now };
}

impl Ranged for PartyNumber {
    ghost ranged = { party_in_range };

    fn is_ranged(&self) -> bool {
        PartyNumber::is_in_range(*self)
    }
}

impl Ranged for Rates {
    ghost ranged = { rates_in_range };

    fn is_ranged(&self) -> bool {
        Rates::is_in_range(*self)
    }
}

// Yes and no are both in range.
impl Ranged for Service {
    ghost ranged = { λ _. true };

    fn is_ranged(&self) -> bool {
        true
    }
}

// Whether the subject is one of `first` to `last`, the from-day is not after the last, and the item is in its range.
fn is_in_range<T: Ranged>(entry: &Dated<T>, first: u32, last: u32) -> bool
    ensures { result ≡ in_range T.Ranged.ranged first last entry.now }
{
    (first..=last).contains(&entry.subject)
        && entry.from_day <= LAST_FROM_DAY
        && entry.item.is_ranged()
}

// Whether each entry is in range.
pub(crate) fn are_in_range<T: Ranged>(entries: &[Dated<T>], first: u32, last: u32) -> bool
    ensures { result ≡ all_in_range T.Ranged.ranged first last entries.now }
{
    entries.iter().all(|entry| is_in_range(entry, first, last))
}
