// The dues of a month, by point and then by charge.
ghost use Rattle.std.specs.Prelude.{◌≡◌, ◌+◌, ◌≤◌, true, Some, None, ◌++◌, length, IfOk, if◌then◌else◌};
ghost use Rattle.std.specs.Result.{result_map_both};
ghost use Rattle.tariff.specs.Points.{kind_at};
ghost use Rattle.ledger.specs.Lines.{every};
ghost use Rattle.ledger.specs.Dues.{facts_if, sound_due};
ghost use Rattle.ledger.specs.Issues.{distinct};
ghost use Rattle.dues.specs.Records.{sound_records};
ghost use Rattle.dues.specs.Facts.{Facts};
ghost use Rattle.dues.specs.Dues.{has_charge, charge_count, determinant_of, due_of, when, point_dues, dues_up_to, dues_answer};
ghost use Rattle.dues.specs.Sameness.{SameFacts};
ghost use Rattle.dues.specs.Lists.{facts_in};
ghost use Rattle.dues.specs.Workings.{records_of, facts_for};

use super::RatedWorkings;
use crate::list::DueList;
use crate::workings::Workings;
use demand::charges;
use demand::determinants::{network_demand, system_peak};
use demand::search::Peak;
use fixed_list::list::FixedList;
use hours::rules::HourRule;
use ledger::due::{Due, Terms};
use ledger::line::Account;
use readings::readings::Readings;
use tariff::charge::Charge;
use tariff::parties::PartyNumber;
use tariff::refusal::Refusal;

// What stands in a place of the list that is not in use: nothing is due.
fn nothing() -> Due {
    let party = PartyNumber { number: 1 };
    let account = Account {
        point: 1,
        charge: Charge::Network,
        customer: party,
        transmitter: party,
    };
    Due::new(account, Terms::default()).unwrap()
}

impl<R: Readings, H: HourRule> RatedWorkings<'_, '_, '_, '_, R, H> {
    // What a charge of a point is made of, with its day and hour.
    fn determinant(&self, point: u32, charge: Charge) -> Peak
        ensures value { result ≡ determinant_of (facts_for R.Readings.meaning H.HourRule.admits self.now.workings.now) self.now.system point charge }
        ensures small { result.0 ≤ 9999999900 }
    {
        let workings = self.workings;
        match charge {
            Charge::Network => {
                let days = workings.calendar.days();
                network_demand(
                    workings.readings,
                    workings.peak_period,
                    days,
                    self.system,
                    point,
                )
                .determinant
            }
            Charge::Line | Charge::Transformation => workings.connection(point),
        }
    }

    // What is due for a charge that a point has, between the parties on record on the last day, at the rate of that day.
    fn due(&self, point: u32, charge: Charge) -> Option<Due>
        ensures { facts_if result ≡ (if has_charge (kind_at (facts_for R.Readings.meaning H.HourRule.admits self.now.workings.now).kinds point) charge then Some (due_of (facts_for R.Readings.meaning H.HourRule.admits self.now.workings.now) self.now.system self.now.rates point charge) else None) }
    {
        if !self.workings.has_charge(point, charge) {
            return None;
        }
        let histories = self.workings.histories;
        let last_day = self.workings.calendar.last_day();
        let account = Account {
            point,
            charge,
            customer: histories.customers.on_record(point, last_day).unwrap(),
            transmitter: histories.transmitters.on_record(point, last_day).unwrap(),
        };
        let (quantity, day, hour) = self.determinant(point, charge);
        let cents = charges::charge(quantity, self.rates.rate(charge)).unwrap();
        let terms = Terms {
            cents: cents as i64,
            quantity,
            day,
            hour,
        };
        Due::new(account, terms)
    }

    // Adds what is due for a charge of a point, if anything.
    #[tactic(auto, using(crate::proofs::Rooms::added))]
    fn add_due(&self, point: u32, charge: Charge, dues: &mut DueList)
        requires { length (facts_in dues.old) + (if has_charge (kind_at (facts_for R.Readings.meaning H.HourRule.admits self.now.workings.now).kinds point) charge then 1 else 0) ≤ 800 }
        ensures { facts_in dues.new ≡ facts_in dues.old ++ when (has_charge (kind_at (facts_for R.Readings.meaning H.HourRule.admits self.now.workings.now).kinds point) charge) (due_of (facts_for R.Readings.meaning H.HourRule.admits self.now.workings.now) self.now.system self.now.rates point charge) }
    {
        if let Some(due) = self.due(point, charge) {
            dues.push(due);
        }
    }

    // Adds the dues of one point, by charge.
    fn add_point(&self, point: u32, dues: &mut DueList)
        requires { length (facts_in dues.old) + charge_count (kind_at (facts_for R.Readings.meaning H.HourRule.admits self.now.workings.now).kinds point) ≤ 800 }
        ensures { facts_in dues.new ≡ facts_in dues.old ++ point_dues (facts_for R.Readings.meaning H.HourRule.admits self.now.workings.now) self.now.system self.now.rates point }
    {
        self.add_due(point, Charge::Network, dues);
        self.add_due(point, Charge::Line, dues);
        self.add_due(point, Charge::Transformation, dues);
    }

    // The dues of all points.
    fn all_dues(&self) -> DueList
        ensures { facts_in result ≡ dues_up_to (facts_for R.Readings.meaning H.HourRule.admits self.now.workings.now) self.now.system self.now.rates (length (facts_for R.Readings.meaning H.HourRule.admits self.now.workings.now).kinds) }
    {
        let mut dues = FixedList::new(nothing());
        for point in 1..=self.workings.points.count() {
            self.add_point(point, &mut dues);
        }
        dues
    }
}

impl<R: Readings, H: HourRule> Workings<'_, '_, '_, R, H> {
    // What is due. Histories that are not sound are refused first, then the first sheet that is missing, then what is
    // not on record. The system peak is worked out once, and each due once.
    pub fn work_out(&self) -> Result<DueList, Refusal>
        ensures answer { result_map_both facts_in (λ e. e) result ≡ dues_answer (sound_records (records_of self.now.histories)) (facts_for R.Readings.meaning H.HourRule.admits self.now) }
        ensures sound { IfOk result (λ l. (every sound_due (facts_in l) ≡ true) × (distinct (facts_in l) ≡ true)) }
        ensures by_facts { (g : Facts) → SameFacts (facts_for R.Readings.meaning H.HourRule.admits self.now) g → result_map_both facts_in (λ e. e) result ≡ dues_answer (sound_records (records_of self.now.histories)) g }
    {
        self.histories.check()?;
        let rates = self.check()?;
        let system = system_peak(self.points, self.calendar, self.readings);
        let rated = RatedWorkings {
            workings: self,
            system,
            rates,
        };
        Ok(rated.all_dues())
    }
}
