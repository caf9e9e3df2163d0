// An hour rule that the library does not have.
ghost use Rattle.rehearsal.specs.Thirds.{in_thirds, thirds_within};

use hours::rules::HourRule;

// The hours whose number and day together are a multiple of 3, in a month of so many days.
#[derive(Clone, Copy)]
pub struct EveryThirdHour {
    pub days: u32,
}

impl HourRule for EveryThirdHour {
    ghost span = { λ t. t.days };

    ghost admits = { λ t d h. in_thirds t.days d h };

    ghost within = { λ t d h. thirds_within t.days d h };

    fn admits_hour(&self, day: u32, hour: u32) -> bool {
        (1..=self.days).contains(&day) && (1..=24).contains(&hour) && (day % 3 + hour) % 3 == 0
    }
}
