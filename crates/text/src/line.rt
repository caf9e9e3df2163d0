// A line that is being written, in a fixed memory of its own.
mod writing;

use fixed_list::list::FixedList;

// The most bytes of a line. What does not fit is dropped.
const ROOM: usize = 256;

#[derive(Drop)]
pub struct Text {
    bytes: FixedList<u8, ROOM>,
}
