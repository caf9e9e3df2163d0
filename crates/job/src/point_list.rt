// Lists of delivery points, as N,N,CLT.
ghost use Rattle.std.specs.Prelude.{◌≡◌, [], Ok, Err, MatchResult};
ghost use Rattle.tariff.specs.Points.{kinds_of, kind_from};
ghost use Rattle.text.specs.Format.{parts};
ghost use Rattle.job.specs.Points.{marks_of, point_kind, points_from};

use tariff::points::{Declaration, PointList};
use tariff::refusal::Refusal;
use text::walk::Parts;

// Why a list is refused: the number of the point at fault, from 1, and its refusal.
#[derive(Clone, Copy)]
pub struct PointFault {
    pub number: u32,
    pub refusal: Refusal,
}

// The marks L, T or LT, or none: whether for line and whether for transformation, a pair that is taken apart at once.
pub fn marks(text: &[u8]) -> Option<(bool, bool)>
    ensures { result ≡ marks_of text.now }
{
    match text {
        [] => Some((false, false)),
        [b'L'] => Some((true, false)),
        [b'T'] => Some((false, true)),
        [b'L', b'T'] => Some((true, true)),
        _ => None,
    }
}

// A point that no kind fits.
pub(crate) const NO_POINT: Declaration = Declaration {
    letter: 0,
    line: false,
    transformation: false,
};

// A point as it is written, or one that no kind fits.
fn point_of(text: &[u8]) -> Declaration
    ensures { kind_from result.letter result.line result.transformation ≡ point_kind text.now }
{
    let [letter, others @ ..] = text else {
        return NO_POINT;
    };
    let Some((line, transformation)) = marks(others) else {
        return NO_POINT;
    };
    Declaration {
        letter: *letter,
        line,
        transformation,
    }
}

// The points of a list, in their order.
pub fn point_list(list: &[u8]) -> Result<PointList, PointFault>
    ensures { MatchResult result (λ l. points_from [] (parts 44 list.now) ≡ Ok (kinds_of l)) (λ f. points_from [] (parts 44 list.now) ≡ Err f) }
{
    let mut points = PointList::new();
    for part in Parts::new(list, b',') {
        let number = points.count() + 1;
        points
            .declare(point_of(part))
            .map_err(|refusal| PointFault { number, refusal })?;
    }
    Ok(points)
}
