// Whether memory is enough for the sheets of a month.
ghost use Rattle.std.specs.Prelude.{◌≡◌, ◌*◌, ◌≤◌};
ghost use Rattle.stores.specs.Room.{room_judged};

use tariff::points::MAX_POINTS;
use tariff::refusal::Refusal;

// At most 400 points, 28 to 31 days, and memory for a sheet of each point and day.
pub(crate) fn check_room(
    points: u32,
    days: u32,
    per_sheet: usize,
    memory_len: usize,
) -> Result<(), Refusal>
    requires { per_sheet ≤ 24 }
    ensures { result ≡ room_judged points days (points * days * per_sheet) memory_len }
{
    if points > MAX_POINTS || !(28..=31).contains(&days) {
        return Err(Refusal::StoreDoesNotFit);
    }
    if (points * days) as usize * per_sheet > memory_len {
        return Err(Refusal::StoreDoesNotFit);
    }
    Ok(())
}
