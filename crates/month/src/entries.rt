// What is entered in the histories of a month.
ghost use Rattle.std.specs.Prelude.{◌≡◌, is_ok, if◌then◌else◌};
ghost use Rattle.tariff.specs.Points.{kinds_of};
ghost use Rattle.records.specs.Entering.{dated, entered_shelf};
ghost use Rattle.records.specs.Histories.{shelf_of};
ghost use Rattle.month.specs.Answers.{from_day_answer, party_answer, service_answer, rates_answer};

use dues::histories::RATES_SUBJECT;
use records::history::History;
use records::range::{LAST_FROM_DAY, Ranged};
use tariff::parties::{PartyNumber, Rates, Service};
use tariff::points::{MAX_POINTS, PointList};
use tariff::refusal::Refusal;

// Enters an item in a history that is sound. Refuses a from-day after the last, then an item out of its range by
// `out_of_range`, then a new entry without a place left.
#[tactic(auto, using(crate::proofs::Entering::entered_if))]
fn enter<T: Ranged + Copy>(
    history: &mut History<T>,
    subject: u32,
    from_day: u32,
    item: T,
    out_of_range: Refusal,
) -> Result<(), Refusal>
    ensures answer { result ≡ from_day_answer (shelf_of history.old) subject from_day item (T.Ranged.ranged item) out_of_range }
    ensures after { shelf_of history.new ≡ (if is_ok result then entered_shelf (shelf_of history.old) (dated subject from_day item) else shelf_of history.old) }
{
    if from_day > LAST_FROM_DAY {
        return Err(Refusal::DayOutOfRange);
    }
    if !item.is_ranged() {
        return Err(out_of_range);
    }
    history.enter(subject, from_day, item)
}

// Enters a customer or a transmitter of a point. Refuses an unsound history, then a point that is not declared, a from-day
// after the last, a party number out of range, and a new entry without a place left.
#[tactic(auto, using(crate::proofs::Entering::not_sound, crate::proofs::Entering::left_alone, crate::proofs::Entering::party_reached))]
pub(crate) fn enter_party(
    points: &PointList,
    history: &mut History<PartyNumber>,
    point: u32,
    from_day: u32,
    party: PartyNumber,
) -> Result<(), Refusal>
    ensures answer { result ≡ party_answer (kinds_of points.now) (shelf_of history.old) point from_day party }
    ensures after { shelf_of history.new ≡ (if is_ok result then entered_shelf (shelf_of history.old) (dated point from_day party) else shelf_of history.old) }
{
    history.check(1, MAX_POINTS)?;
    if !(1..=points.count()).contains(&point) {
        return Err(Refusal::UnknownPoint);
    }
    enter(history, point, from_day, party, Refusal::PartyOutOfRange)
}

// Enters the service of a connection point. Refuses an unsound history, then a point that is not declared, a network point,
// a from-day after the last, and a new entry without a place left.
#[tactic(auto, using(crate::proofs::Entering::not_sound, crate::proofs::Entering::left_alone, crate::proofs::Entering::service_reached))]
pub(crate) fn enter_service(
    points: &PointList,
    history: &mut History<Service>,
    point: u32,
    from_day: u32,
    service: Service,
) -> Result<(), Refusal>
    ensures answer { result ≡ service_answer (kinds_of points.now) (shelf_of history.old) point from_day service }
    ensures after { shelf_of history.new ≡ (if is_ok result then entered_shelf (shelf_of history.old) (dated point from_day service) else shelf_of history.old) }
{
    history.check(1, MAX_POINTS)?;
    let kind = points.kind(point).ok_or(Refusal::UnknownPoint)?;
    if kind.is_network() {
        return Err(Refusal::ServiceOfNetworkPoint);
    }
    // Yes and no are both in range, so that no service is refused as out of it.
    enter(history, point, from_day, service, Refusal::Unsound)
}

// Enters rates. Refuses an unsound history, then a from-day after the last, a rate too high, and a new entry without a
// place left.
#[tactic(auto, using(crate::proofs::Entering::not_sound, crate::proofs::Entering::left_alone, crate::proofs::Entering::rates_reached))]
pub(crate) fn enter_rates(
    history: &mut History<Rates>,
    from_day: u32,
    rates: Rates,
) -> Result<(), Refusal>
    ensures answer { result ≡ rates_answer (shelf_of history.old) from_day rates }
    ensures after { shelf_of history.new ≡ (if is_ok result then entered_shelf (shelf_of history.old) (dated 0 from_day rates) else shelf_of history.old) }
{
    history.check(RATES_SUBJECT, RATES_SUBJECT)?;
    enter(
        history,
        RATES_SUBJECT,
        from_day,
        rates,
        Refusal::RateTooHigh,
    )
}
