// A store with a row for each sheet that has come, in the order in which they came.
ghost use Rattle.std.specs.Prelude.{◌≡◌, ◌*◌, ◌≤◌, true, length, take};
ghost use Rattle.stores.specs.Rows.{rows_ok};

use crate::extent::Extent;
use tariff::reading::Reading;

mod store;

// A sheet's fields in a type of the store's own, so that the store says what its memory is filled with.
#[derive(Clone, Copy)]
pub struct Row {
    pub point: u32,
    pub day: u32,
    pub readings: [Reading; 24],
}

impl Row {
    // What memory for rows may be filled with. A new store takes any rows, and reads none of them.
    pub const EMPTY: Row = Row {
        point: 0,
        day: 0,
        readings: [Reading::Withdrawal(0); 24],
    };
}

#[derive(Drop)]
pub struct RowStore<'a> {
    extent: Extent,
    used: usize,
    rows: &'a mut [Row],
    ghost fits: { extent.points * extent.days ≤ length rows.now },
    ghost filled: { used ≤ length rows.now },
    ghost ok: { rows_ok extent.points extent.days (take used rows.now) ≡ true },
}
