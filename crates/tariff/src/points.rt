// The delivery points of a month, numbered from 1 as they are declared.
use fixed_list::list::FixedList;

mod questions;

// The most delivery points of a month.
pub const MAX_POINTS: u32 = 400;

// A network point is charged 650; a connection point 651 with a mark for line, 652 with one for transformation.
#[derive(Clone, Copy)]
pub enum PointKind {
    Network,
    Connection { line: bool, transformation: bool },
}

// A point as it is declared: any letter, and the marks for line and transformation. Whoever takes it tests it.
#[derive(Clone, Copy)]
pub struct Declaration {
    pub letter: u8,
    pub line: bool,
    pub transformation: bool,
}

#[derive(Clone, Copy)]
pub struct PointList {
    kinds: FixedList<PointKind, 400>,
}
