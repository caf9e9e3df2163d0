// How the dues of a month are worked out.
mod questions;
mod rated;

use crate::histories::Histories;
use calendar::month::Calendar;
use tariff::points::PointList;

// All that the dues of a month are worked out from.
#[derive(Drop)]
pub struct Workings<'a, 'm, 'p, R, H> {
    pub points: &'a PointList,
    pub calendar: &'a Calendar,
    pub readings: &'a R,
    pub peak_period: &'p H,
    pub histories: Histories<'a, 'm>,
}
