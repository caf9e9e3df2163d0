// What is asked of readings, whatever holds them.
ghost use Rattle.std.specs.Prelude.{◌≡◌, ◌≤◌, length};
ghost use Rattle.tariff.specs.Points.{kinds_of};
ghost use Rattle.readings.specs.Demands.{demand_at, network_demand_of, network_demand};
ghost use Rattle.readings.specs.Missing.{first_of, no_sheet, first_missing, FirstMissing};

use crate::readings::Readings;
use tariff::points::PointList;
use tariff::refusal::Refusal;

// The first of the days 1 to `days` on which a point has no sheet.
fn first_missing_day<R: Readings>(readings: &R, point: u32, days: u32) -> Option<Refusal>
    ensures { result ≡ first_of (no_sheet (R.meaning readings.now).sheets point) days }
{
    (0..days).find_map(|k| {
        (!readings.has_sheet(point, k + 1)).then_some(Refusal::SheetMissing { point, day: k + 1 })
    })
}

// The first of the points 1 to `points`, and its first day, without a sheet.
pub fn first_missing<R: Readings>(readings: &R, points: u32, days: u32) -> Option<Refusal>
    ensures value { result ≡ first_missing (R.meaning readings.now).sheets points days }
    ensures first { FirstMissing (R.meaning readings.now).sheets points days result }
{
    for k in 0..points {
        if let Some(refusal) = first_missing_day(readings, k + 1, days) {
            return Some(refusal);
        }
    }
    None
}

// The demand of a point in an hour: nothing where there is no reading.
pub fn demand_at<R: Readings>(readings: &R, point: u32, day: u32, hour: u32) -> u32
    ensures value { result ≡ demand_at (R.meaning readings.now).sheets point day hour }
    ensures small { result ≤ 99999999 }
{
    readings
        .reading(point, day, hour)
        .map_or(0, |reading| reading.demand())
}

// What a point adds to the demand of the network points. The readings of other points are not asked for.
fn added_demand<R: Readings>(
    readings: &R,
    points: &PointList,
    point: u32,
    day: u32,
    hour: u32,
) -> u32
    ensures { result ≡ network_demand_of (kinds_of points.now) (R.meaning readings.now).sheets day hour point }
{
    if points.kind(point).is_some_and(|kind| kind.is_network()) {
        demand_at(readings, point, day, hour)
    } else {
        0
    }
}

// The demand of all network points together. The reading of each is asked for once.
pub fn network_demand_at<R: Readings>(readings: &R, points: &PointList, day: u32, hour: u32) -> u64
    ensures { result ≡ network_demand (kinds_of points.now) (R.meaning readings.now).sheets day hour (length (kinds_of points.now)) }
{
    (0..points.count())
        .map(|k| u64::from(added_demand(readings, points, k + 1, day, hour)))
        .sum()
}
