// One dated entry, and how it stands to a subject and a day.
ghost use Rattle.std.specs.Prelude.{◌≡◌};
ghost use Rattle.records.specs.Books.{precedes, stands_at, holds};

// An item that a subject has from a day on. A new history takes any entries in its memory, and reads none that is not in
// use, so that memory may be filled with the default.
#[derive(Clone, Copy, Default)]
pub struct Dated<T> {
    pub subject: u32,
    pub from_day: u32,
    pub item: T,
}

impl<T> Dated<T> {
    // Whether the entry stands before those of `subject` from `from_day`.
    pub(crate) fn precedes(&self, subject: u32, from_day: u32) -> bool
        ensures { result ≡ precedes self.now subject from_day }
    {
        self.subject < subject || (self.subject == subject && self.from_day < from_day)
    }

    // Whether it is the entry of `subject` from exactly `from_day`.
    pub(crate) fn stands_at(&self, subject: u32, from_day: u32) -> bool
        ensures { result ≡ stands_at self.now subject from_day }
    {
        (self.subject, self.from_day) == (subject, from_day)
    }

    // Whether it is of `subject`, and from a day not after `day`.
    pub(crate) fn holds(&self, subject: u32, day: u32) -> bool
        ensures { result ≡ holds self.now subject day }
    {
        self.subject == subject && self.from_day <= day
    }
}
