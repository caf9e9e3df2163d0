// The greatest quantity, found by going through every hour.
use super::days::HourTable;
use crate::plain::{PlainPeak, numbered};

// A quantity for each hour of 31 days.
pub type DemandTable = [[u64; 24]; 31];

pub const NO_DEMAND: DemandTable = [[0; 24]; 31];

// The greatest quantity with its day and hour; among equals the latest, and zeros where no hour is admitted.
pub fn greatest(table: &DemandTable, admitted: &HourTable) -> PlainPeak {
    let mut peak = PlainPeak::default();
    for (day, (quantities, row)) in (1..=31).zip(table.iter().zip(admitted.iter())) {
        for (hour, (quantity, is_admitted)) in (1..=24).zip(quantities.iter().zip(row.iter())) {
            if *is_admitted && *quantity >= peak.quantity {
                peak = PlainPeak {
                    quantity: *quantity,
                    day,
                    hour,
                };
            }
        }
    }
    peak
}

// The quantity of a day and hour, 0 outside the table.
pub fn quantity_at(table: &DemandTable, day: u32, hour: u32) -> u64 {
    numbered(table, day)
        .and_then(|row| numbered(row, hour))
        .copied()
        .unwrap_or(0)
}
