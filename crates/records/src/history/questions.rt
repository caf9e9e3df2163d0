// What a history has on record, what is entered in it, and whether it is sound.
ghost use Rattle.std.specs.Prelude.{◌≡◌, ℕ, Bool, true};
ghost use Rattle.tariff.specs.Shelves.{items};
ghost use Rattle.records.specs.Books.{latest, book_latest};
ghost use Rattle.records.specs.Histories.{shelf_of, book};
ghost use Rattle.records.specs.Soundness.{in_order, sound_within, passes, check_answer};
ghost use Rattle.records.specs.Entering.{dated, entered_shelf, entry_answer, Booked};

use super::History;
use crate::dated::Dated;
use crate::range::Ranged;
use crate::{entries, range};
use tariff::refusal::Refusal;

impl<'a, T: Copy> History<'a, T> {
    // The item of `subject` on `day`: that with the greatest from-day not after it. Where the entries are in order, it is
    // what the plain book has from the day, or else had on record the day before; where they are sound, it is in range.
    pub fn on_record(&self, subject: u32, day: u32) -> Option<T>
        ensures value { result ≡ latest (items (shelf_of self.now)) subject day }
        ensures book { in_order (shelf_of self.now) ≡ true → result ≡ book_latest (book (shelf_of self.now)) subject day }
        ensures ranged { (ok : T → Bool) (first last : ℕ) → sound_within ok first last (shelf_of self.now) ≡ true → passes ok result ≡ true }
    {
        entries::latest_of(self.entries(), subject, day)
    }

    // Enters `item` for `subject` from `from_day`, in place of the item that the subject has from that day, if any.
    pub fn enter(&mut self, subject: u32, from_day: u32, item: T) -> Result<(), Refusal>
        ensures answer { result ≡ entry_answer (shelf_of self.old) (dated subject from_day item) }
        ensures entered { shelf_of self.new ≡ entered_shelf (shelf_of self.old) (dated subject from_day item) }
        ensures lent { self.new.entries.ghost_name ≡ self.old.entries.ghost_name }
        ensures booked { Booked (shelf_of self.old) (shelf_of self.new) (dated subject from_day item) result }
    {
        let entry = Dated {
            subject,
            from_day,
            item,
        };
        self.used = entries::put_in(self.entries, self.used, entry)?;
        Ok(())
    }
}

impl<'a, T: Ranged + Copy> History<'a, T> {
    fn is_sound(&self, first: u32, last: u32) -> bool
        ensures { result ≡ sound_within T.Ranged.ranged first last (shelf_of self.now) }
    {
        self.used <= self.entries.len()
            && entries::in_order(self.entries())
            && range::are_in_range(self.entries(), first, last)
    }

    // Refuses a history with more in use than its memory, out of order, or with a number outside its range, where subjects
    // are those from `first` to `last`.
    pub fn check(&self, first: u32, last: u32) -> Result<(), Refusal>
        ensures { result ≡ check_answer T.Ranged.ranged first last (shelf_of self.now) }
    {
        if self.is_sound(first, last) {
            Ok(())
        } else {
            Err(Refusal::Unsound)
        }
    }
}
