// A dated history over memory that the caller lends.
ghost use Rattle.std.specs.Prelude.{◌≡◌};
ghost use Rattle.tariff.specs.Shelves.{items};
ghost use Rattle.records.specs.Histories.{shelf, shelf_of};

use crate::dated::Dated;

mod questions;

// The first `used` entries are in use; the memory behind them is room for more.
#[derive(Drop)]
pub struct History<'a, T> {
    entries: &'a mut [Dated<T>],
    used: usize,
}

impl<'a, T: Copy> History<'a, T> {
    // Takes the memory as it is.
    pub fn over(entries: &'a mut [Dated<T>], used: usize) -> History<'a, T>
        ensures lent { result.entries ≡ entries.entry }
        ensures contents { shelf_of result ≡ shelf entries.old used }
    {
        History { entries, used }
    }

    // How many entries are in use.
    pub fn used(&self) -> usize
        ensures { result ≡ (shelf_of self.now).used }
    {
        self.used
    }

    // The entries in use, as far as the memory has them.
    pub fn entries(&self) -> &[Dated<T>]
        ensures { result.now ≡ items (shelf_of self.now) }
    {
        let used = self.used.min(self.entries.len());
        &self.entries[0..used]
    }
}
