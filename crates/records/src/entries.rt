// Slices of dated entries.
ghost use Rattle.std.specs.Prelude.{◌≡◌, ◌+◌, ◌<◌, ◌≤◌, ◌++◌, length, take, drop};
ghost use Rattle.std.specs.List.{insert};
ghost use Rattle.records.specs.Books.{sorted, place, latest};
ghost use Rattle.records.specs.Histories.{shelf};
ghost use Rattle.records.specs.Entering.{entered_shelf, count_answer};

use crate::dated::Dated;
use tariff::refusal::Refusal;

// Whether each entry stands before the next.
pub(crate) fn in_order<T>(entries: &[Dated<T>]) -> bool
    ensures { result ≡ sorted entries.now }
{
    entries.is_sorted_by(|entry, next| entry.precedes(next.subject, next.from_day))
}

// How many entries at the front stand before `subject` and `from_day`.
fn place_of<T>(entries: &[Dated<T>], subject: u32, from_day: u32) -> usize
    ensures { result ≡ place entries.now subject from_day }
{
    entries
        .iter()
        .position(|entry| !entry.precedes(subject, from_day))
        .unwrap_or(entries.len())
}

// The item of the last entry of `subject` from a day not after `day`: the entries are asked one by one from the end.
fn last_of<T: Copy>(entries: &[Dated<T>], subject: u32, day: u32) -> Option<T>
    ensures { result ≡ latest entries.now subject day }
{
    entries
        .iter()
        .rev()
        .find(|entry| entry.holds(subject, day))
        .map(|entry| entry.item)
}

// The item of the last entry of `subject` from a day not after `day`. The entries are passed by fours from the end, and asked
// one by one only where one of the four is of the subject: so the others take one test each, with no loop around it.
pub fn latest_of<T: Copy>(entries: &[Dated<T>], subject: u32, day: u32) -> Option<T>
    ensures { result ≡ latest entries.now subject day }
{
    let mut rest = entries;
    while rest.len() >= 4 {
        let (others, four) = rest.split_at(rest.len() - 4);
        if four.iter().any(|entry| entry.subject == subject) {
            let found = last_of(four, subject, day);
            if found.is_some() {
                return found;
            }
        }
        rest = others;
    }
    last_of(rest, subject, day)
}

// Puts `entry` at `at` among the first `used` entries, and those from there on one further.
fn insert_at<T: Copy>(entries: &mut [Dated<T>], used: usize, at: usize, entry: Dated<T>)
    requires { (at ≤ used) × (used < length entries.old) }
    ensures { entries.new ≡ insert (take used entries.old) at entry ++ drop (used + 1) entries.old }
{
    entries[used] = entry;
    let shifted = &mut entries[at..used + 1];
    shifted.rotate_right(1);
}

// Enters `entry` in order among the first `used` entries, in place of the one with its subject and from-day if there is one,
// and answers how many are then in use.
pub fn put_in<T: Copy>(
    entries: &mut [Dated<T>],
    used: usize,
    entry: Dated<T>,
) -> Result<usize, Refusal>
    ensures answer { result ≡ count_answer (shelf entries.old used) entry }
    ensures entered { entries.new ≡ (entered_shelf (shelf entries.old used) entry).memory }
{
    let len = entries.len();
    if used > len {
        return Err(Refusal::HistoryFull);
    }
    let all = &*entries;
    let at = place_of(&all[0..used], entry.subject, entry.from_day);
    if at < used && entries[at].stands_at(entry.subject, entry.from_day) {
        entries[at] = entry;
        return Ok(used);
    }
    if used == len {
        return Err(Refusal::HistoryFull);
    }
    insert_at(entries, used, at, entry);
    Ok(used + 1)
}
