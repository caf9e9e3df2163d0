// The hours of the days on which a point is in service.
ghost use Rattle.std.specs.Prelude.{◌≤◌};

mod days;

pub use self::days::service_days;

// The days of one point, looked up once for the month. Bit 0 of the mask is the month's first day.
#[derive(Clone, Copy)]
pub struct ServiceDays {
    days: u32,
    mask: u32,
    ghost few: { days ≤ 31 },
}
