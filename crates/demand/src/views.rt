// Readings as hourly quantities.
ghost use Rattle.std.specs.Prelude.{length};
ghost use Rattle.tariff.specs.Points.{kinds_of};
ghost use Rattle.readings.specs.Demands.{demand_at, network_demand};

use crate::search::HourlyQuantity;
use readings::questions::{demand_at, network_demand_at};
use readings::readings::Readings;
use tariff::points::PointList;

// The demand of one point.
#[derive(Drop)]
pub struct PointDemand<'a, R> {
    pub readings: &'a R,
    pub point: u32,
}

impl<R: Readings> HourlyQuantity for PointDemand<'_, R> {
    ghost quantity = { λ s d h. demand_at (R.Readings.meaning s.readings.now).sheets s.point d h };

    fn quantity_at(&self, day: u32, hour: u32) -> u64 {
        u64::from(demand_at(self.readings, self.point, day, hour))
    }
}

// The demand of all network points together. Connection points are no part of it.
#[derive(Drop)]
pub struct SystemDemand<'a, R> {
    pub readings: &'a R,
    pub points: &'a PointList,
}

impl<R: Readings> HourlyQuantity for SystemDemand<'_, R> {
    ghost quantity = { λ s d h. network_demand (kinds_of s.points.now) (R.Readings.meaning s.readings.now).sheets d h (length (kinds_of s.points.now)) };

    fn quantity_at(&self, day: u32, hour: u32) -> u64 {
        network_demand_at(self.readings, self.points, day, hour)
    }
}
