// What is asked of an extent.
ghost use Rattle.std.specs.Prelude.{◌≡◌, ◌&&◌};
ghost use Rattle.tariff.specs.Ranges.{within};

use super::Extent;

impl Extent {
    // That of a store which takes no sheet.
    pub(crate) const NONE: Extent = Extent { points: 0, days: 0 };

    // Whether there may be a sheet of a point and day.
    pub(crate) fn has(self, point: u32, day: u32) -> bool
        ensures { result ≡ (within self.points point && within self.days day) }
    {
        (1..=self.points).contains(&point) && (1..=self.days).contains(&day)
    }
}
