// What is charged for a determinant.
ghost use Rattle.std.specs.Prelude.{◌≡◌, IfSome};
ghost use Rattle.demand.specs.Charges.{charged, Nearest};

use tariff::parties::MAX_RATE;

// The largest determinant, in ten-thousandths of a kW.
pub const MAX_DETERMINANT: u64 = 9_999_999_900;

// The charge in cents, rounded half up; None where a number is above its limit.
pub fn charge(determinant: u64, rate: u32) -> Option<u64>
    ensures value { result ≡ charged determinant rate }
    ensures nearest { IfSome result (Nearest determinant rate) }
{
    if determinant > MAX_DETERMINANT || rate > MAX_RATE {
        return None;
    }
    Some((determinant * u64::from(rate) + 5_000_000) / 10_000_000)
}
