// Masks of days: bit 0 for day 1.
ghost use Rattle.std.specs.Prelude.{◌≡◌, ℕ, ◌&&◌, min, Bool};
ghost use Rattle.tariff.specs.Ranges.{within};
ghost use Rattle.calendar.specs.Marks.{marked, MarksJust};

// A choice of days. It is a trait, since of a closure a caller would have to show that it may be called for any day.
pub trait DayRule {
    ghost picks: { Self → ℕ → Bool };

    fn picks_day(&self, day: u32) -> bool
        ensures { result ≡ picks self.now day };
}

// Whether a mask marks a day. It has bits for the days 1 to 32.
pub fn is_marked(mask: u32, day: u32) -> bool
    ensures { result ≡ (within 32 day && marked mask day) }
{
    (1..=32).contains(&day) && mask >> (day - 1) & 1 == 1
}

// A mask that marks just the days from 1 to `days` which are picked; at most 32 days are looked at, each once.
#[tactic(auto, using(crate::proofs::Picked::none_marked))]
pub fn mask_of<D: DayRule>(rule: &D, days: u32) -> u32
    ensures { MarksJust (min days 32) (D.picks rule.now) result }
{
    let mut mask = 0;
    for day in 1..=days.min(32) {
        if rule.picks_day(day) {
            mask |= 1 << (day - 1);
        }
    }
    mask
}
