// Readings and the daily sheets that they come in.
ghost use Rattle.std.specs.Prelude.{◌≡◌};
ghost use Rattle.tariff.specs.Readings.{quantity_of, demand_of, too_large};
ghost use Rattle.tariff.specs.Sheets.{judged};

use crate::refusal::Refusal;

// The largest quantity of a reading, in hundredths of a kW.
pub const MAX_QUANTITY: u32 = 99_999_999;

// What a point took from the grid, net, or gave to it in one hour.
#[derive(Clone, Copy)]
pub enum Reading {
    Withdrawal(u32),
    Injection(u32),
}

impl Reading {
    pub fn quantity(self) -> u32
        ensures { result ≡ quantity_of self }
    {
        match self {
            Reading::Withdrawal(quantity) | Reading::Injection(quantity) => quantity,
        }
    }

    // The demand of a withdrawal is its quantity, that of an injection is zero.
    pub fn demand(self) -> u32
        ensures { result ≡ demand_of self }
    {
        match self {
            Reading::Withdrawal(quantity) => quantity,
            Reading::Injection(_) => 0,
        }
    }
}

// One day's readings of one point, hours 1 to 24 in order, taken whole.
#[derive(Clone, Copy)]
pub struct Sheet {
    pub point: u32,
    pub day: u32,
    pub readings: [Reading; 24],
}

// The first hour whose quantity is above the limit.
fn first_too_large(readings: &[Reading; 24]) -> Option<u32>
    ensures { result ≡ too_large 1 readings.now }
{
    for (i, reading) in readings.iter().enumerate() {
        if reading.quantity() > MAX_QUANTITY {
            return Some(i as u32 + 1);
        }
    }
    None
}

// Whether a sheet may be taken where there are so many points and days: tests 6, 7 and 8, in this order.
pub fn check_sheet(points: u32, days: u32, sheet: &Sheet) -> Result<(), Refusal>
    ensures { result ≡ judged points days sheet.now }
{
    if !(1..=points).contains(&sheet.point) {
        return Err(Refusal::UnknownPoint);
    }
    if !(1..=days).contains(&sheet.day) {
        return Err(Refusal::UnknownDay);
    }
    match first_too_large(&sheet.readings) {
        Some(hour) => Err(Refusal::QuantityTooLarge { hour }),
        None => Ok(()),
    }
}
