// A store with a number for each hour of each day of each point: the reading, or the mark of a missing one.
ghost use Rattle.std.specs.Prelude.{◌*◌, ◌≤◌, length};

use crate::extent::Extent;

mod store;

#[derive(Drop)]
pub struct FullTable<'a> {
    extent: Extent,
    words: &'a mut [u32],
    ghost fits: { extent.points * extent.days * 24 ≤ length words.now },
}
