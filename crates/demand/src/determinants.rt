// The billing demands of a month.
ghost use Rattle.std.specs.Prelude.{◌≡◌, ◌≤◌, length};
ghost use Rattle.tariff.specs.Points.{kinds_of};
ghost use Rattle.calendar.specs.Calendars.{length_in};
ghost use Rattle.readings.specs.Demands.{demand_at, network_demand};
ghost use Rattle.hours.specs.Hours.{in_month};
ghost use Rattle.demand.specs.Peaks.{peak_over, IsPeak};
ghost use Rattle.demand.specs.Charges.{network_of};
ghost use Rattle.demand.specs.Determinants.{system_peak_of, network_determinant, connection_determinant};

use crate::search::{Peak, peak};
use crate::views::{PointDemand, SystemDemand};
use calendar::month::Calendar;
use hours::rules::{HourRule, WholeMonth};
use readings::questions::demand_at;
use readings::readings::Readings;
use tariff::points::PointList;

// The peak of the sum of all network points' demands, over the whole month.
pub fn system_peak<'a, R: Readings>(
    points: &'a PointList,
    calendar: &Calendar,
    readings: &'a R,
) -> Peak
    ensures value { result ≡ system_peak_of (kinds_of points.now) (length_in calendar.now) (R.meaning readings.now).sheets }
    ensures is_peak { IsPeak (in_month (length_in calendar.now)) (λ d h. network_demand (kinds_of points.now) (R.meaning readings.now).sheets d h (length (kinds_of points.now))) (length_in calendar.now) result }
{
    peak(
        &SystemDemand { readings, points },
        &WholeMonth { calendar },
        calendar.days(),
    )
}

// The greatest demand of one point under an hour rule.
fn own_peak<R: Readings, H: HourRule>(readings: &R, point: u32, rule: &H, days: u32) -> Peak
    ensures value { result ≡ peak_over (H.admits rule.now) (demand_at (R.meaning readings.now).sheets point) days }
    ensures small { result.0 ≤ 99999999 }
{
    peak(&PointDemand { readings, point }, rule, days)
}

// A network point's billing demand, and what it is made of.
#[derive(Clone, Copy)]
pub struct NetworkDemand {
    // C, the demand at the system peak.
    pub coincident: u64,
    // Q, the greatest demand in the peak period, with its day and hour.
    pub own: Peak,
    // 100 × C at the system peak, or 85 × Q at its own hour if that is more.
    pub determinant: Peak,
}

// The billing demand of a network point, where the system peak is known.
pub fn network_demand<R: Readings, H: HourRule>(
    readings: &R,
    peak_period: &H,
    days: u32,
    system: Peak,
    point: u32,
) -> NetworkDemand
    ensures coincident { result.coincident ≡ demand_at (R.meaning readings.now).sheets point system.1 system.2 }
    ensures own { result.own ≡ peak_over (H.admits peak_period.now) (demand_at (R.meaning readings.now).sheets point) days }
    ensures determinant { result.determinant ≡ network_determinant (R.meaning readings.now).sheets (H.admits peak_period.now) days system point }
    ensures small { result.determinant.0 ≤ 9999999900 }
{
    let coincident = u64::from(demand_at(readings, point, system.1, system.2));
    let own = own_peak(readings, point, peak_period, days);
    NetworkDemand {
        coincident,
        own,
        determinant: network_determinant(system, coincident, own),
    }
}

// The determinant of a network point from C and Q.
fn network_determinant(system: Peak, coincident: u64, own: Peak) -> Peak
    requires { (coincident ≤ 99999999) × (own.0 ≤ 99999999) }
    ensures value { result ≡ network_of system coincident own }
    ensures small { result.0 ≤ 9999999900 }
{
    let at_system_peak = 100 * coincident;
    let at_own_peak = 85 * own.0;
    if at_system_peak >= at_own_peak {
        (at_system_peak, system.1, system.2)
    } else {
        (at_own_peak, own.1, own.2)
    }
}

// The billing demand of a connection point, for line and transformation alike: 100 × its greatest demand in service.
pub fn connection_demand<R: Readings, H: HourRule>(
    readings: &R,
    service: &H,
    days: u32,
    point: u32,
) -> Peak
    ensures value { result ≡ connection_determinant (R.meaning readings.now).sheets (H.admits service.now) days point }
    ensures small { result.0 ≤ 9999999900 }
{
    let own = own_peak(readings, point, service, days);
    (100 * own.0, own.1, own.2)
}
