// What points are declared, and what is asked of them.
ghost use Rattle.std.specs.Prelude.{◌≡◌, ◌≤◌, [], length};
ghost use Rattle.std.specs.Option.{ok_or};
ghost use Rattle.tariff.specs.declared.refusal.Refusal.TheVariants.{NotAPointKind};
ghost use Rattle.tariff.specs.Points.{is_network, has, kind_declared, kinds_of, kind_at, declared, with_point};

use super::{Declaration, PointKind, PointList};
use crate::charge::Charge;
use crate::refusal::Refusal;
use fixed_list::list::FixedList;

// N without marks, or C with a mark for line, transformation or both.
impl TryFrom<Declaration> for PointKind {
    type Error = Refusal;

    ghost try_from_gives = { λ d r. r ≡ ok_or (kind_declared d) NotAPointKind };

    fn try_from(point: Declaration) -> Result<PointKind, Refusal> {
        match point {
            Declaration {
                letter: b'N',
                line: false,
                transformation: false,
            } => Ok(PointKind::Network),
            Declaration {
                letter: b'C',
                line,
                transformation,
            } if line || transformation => Ok(PointKind::Connection {
                line,
                transformation,
            }),
            _ => Err(Refusal::NotAPointKind),
        }
    }
}

impl PointKind {
    pub fn is_network(self) -> bool
        ensures { result ≡ is_network self }
    {
        matches!(self, PointKind::Network)
    }

    // Whether a point of this kind has the charge.
    pub fn has(self, charge: Charge) -> bool
        ensures { result ≡ has self charge }
    {
        match (self, charge) {
            (PointKind::Network, Charge::Network) => true,
            (PointKind::Connection { line, .. }, Charge::Line) => line,
            (PointKind::Connection { transformation, .. }, Charge::Transformation) =>
                transformation,
            _ => false,
        }
    }
}

impl PointList {
    pub fn new() -> PointList
        ensures { kinds_of result ≡ [] }
    {
        PointList {
            kinds: FixedList::new(PointKind::Network),
        }
    }

    // Takes one more point and answers its number. Refuses a 401st point before a kind that there is not.
    pub fn declare(&mut self, point: Declaration) -> Result<u32, Refusal>
        ensures answer { result ≡ declared (length (kinds_of self.old)) (kind_declared point) }
        ensures after { kinds_of self.new ≡ with_point result (kind_declared point) (kinds_of self.old) }
    {
        if self.kinds.is_full() {
            return Err(Refusal::TooManyPoints);
        }
        self.kinds.push(PointKind::try_from(point)?);
        Ok(self.count())
    }

    pub fn count(&self) -> u32
        ensures { (result ≡ length (kinds_of self.now)) × (result ≤ 400) }
    {
        self.kinds.len() as u32
    }

    // What a point is, if it is declared.
    pub fn kind(&self, point: u32) -> Option<PointKind>
        ensures { result ≡ kind_at (kinds_of self.now) point }
    {
        let place = point.checked_sub(1)?;
        self.kinds.as_slice().get(place as usize).copied()
    }
}
