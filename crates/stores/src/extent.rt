// How many points and days a store is for.
ghost use Rattle.std.specs.Prelude.{◌≤◌};

mod questions;

#[derive(Clone, Copy)]
pub(crate) struct Extent {
    pub(crate) points: u32,
    pub(crate) days: u32,
    ghost limit: { points ≤ 400 },
    ghost month: { days ≤ 31 },
}
