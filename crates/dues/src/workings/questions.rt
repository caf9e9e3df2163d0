// What a month lacks, and what its charges are made of.
ghost use Rattle.std.specs.Prelude.{◌≡◌, ◌≤◌, Some, None, MatchResult};
ghost use Rattle.tariff.specs.Points.{kind_at};
ghost use Rattle.hours.specs.Hours.{is_in_service};
ghost use Rattle.demand.specs.Determinants.{connection_determinant};
ghost use Rattle.dues.specs.Facts.{last_day, refusal_of};
ghost use Rattle.dues.specs.Dues.{has_charge};
ghost use Rattle.dues.specs.Workings.{facts_for};

use super::Workings;
use crate::histories::RATES_SUBJECT;
use demand::determinants::connection_demand;
use demand::search::Peak;
use hours::rules::HourRule;
use hours::service::service_days;
use readings::questions::first_missing;
use readings::readings::Readings;
use tariff::charge::Charge;
use tariff::parties::Rates;
use tariff::refusal::Refusal;

impl<R: Readings, H: HourRule> Workings<'_, '_, '_, R, H> {
    // The rates, where nothing is lacking: the sheets are looked for first, then the rates, then the parties.
    pub(super) fn check(&self) -> Result<Rates, Refusal>
        ensures { MatchResult result (λ x. (refusal_of (facts_for R.Readings.meaning H.HourRule.admits self.now) ≡ None) × ((facts_for R.Readings.meaning H.HourRule.admits self.now).rates_on (last_day (facts_for R.Readings.meaning H.HourRule.admits self.now)) ≡ Some x)) (λ e. refusal_of (facts_for R.Readings.meaning H.HourRule.admits self.now) ≡ Some e) }
    {
        let points = self.points.count();
        let last_day = self.calendar.last_day();
        first_missing(self.readings, points, self.calendar.days()).map_or(Ok(()), Err)?;
        let rates = self
            .histories
            .rates
            .on_record(RATES_SUBJECT, last_day)
            .ok_or(Refusal::NothingOnRecord { point: 0 })?;
        self.histories
            .first_unrecorded(points, last_day)
            .map_or(Ok(rates), Err)
    }

    // Whether a point is declared and has the charge.
    pub(super) fn has_charge(&self, point: u32, charge: Charge) -> bool
        ensures { result ≡ has_charge (kind_at (facts_for R.Readings.meaning H.HourRule.admits self.now).kinds point) charge }
    {
        self.points.kind(point).is_some_and(|kind| kind.has(charge))
    }

    // What a connection charge of a point is made of: the greatest demand over the hours in service.
    pub(super) fn connection(&self, point: u32) -> Peak
        ensures value { result ≡ connection_determinant (facts_for R.Readings.meaning H.HourRule.admits self.now).sheets (is_in_service (facts_for R.Readings.meaning H.HourRule.admits self.now).days (facts_for R.Readings.meaning H.HourRule.admits self.now).first ((facts_for R.Readings.meaning H.HourRule.admits self.now).served_on point)) (facts_for R.Readings.meaning H.HourRule.admits self.now).days point }
        ensures small { result.0 ≤ 9999999900 }
    {
        let service = service_days(self.histories.service, self.calendar, point);
        connection_demand(self.readings, &service, self.calendar.days(), point)
    }
}
