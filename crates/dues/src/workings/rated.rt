// Workings with what all their dues share.
ghost use Rattle.std.specs.Prelude.{◌≡◌, ℕ, true};
ghost use Rattle.tariff.specs.declared.charge.Charge.{Charge};
ghost use Rattle.tariff.specs.Parties.{rates_in_range};
ghost use Rattle.tariff.specs.Points.{kind_at};
ghost use Rattle.ledger.specs.Dues.{sound_due};
ghost use Rattle.dues.specs.Dues.{has_charge, due_of};
ghost use Rattle.dues.specs.Workings.{facts_for};

use super::Workings;
use demand::search::Peak;
use hours::rules::HourRule;
use readings::readings::Readings;
use tariff::parties::Rates;

mod dues;

// The system peak and the rates of the last day, of workings that lack nothing.
#[derive(Drop)]
struct RatedWorkings<'w, 'a, 'm, 'p, R: Readings, H: HourRule> {
    workings: &'w Workings<'a, 'm, 'p, R, H>,
    system: Peak,
    rates: Rates,
    ghost rated: { rates_in_range rates ≡ true },
    ghost sound: { (p : ℕ) (c : Charge) → has_charge (kind_at (facts_for R.Readings.meaning H.HourRule.admits workings.now).kinds p) c ≡ true → sound_due (due_of (facts_for R.Readings.meaning H.HourRule.admits workings.now) system rates p c) ≡ true },
}
