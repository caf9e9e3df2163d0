// What is due: determinants and charges, worked out from the accepted sheets and entries.
use super::book::{Book, latest_of};
use super::days::{HourTable, admitted_hours, table_of, whole_month};
use super::peaks::{DemandTable, NO_DEMAND, greatest, quantity_at};
use crate::plain::{
    PlainAccount, PlainCall, PlainPeak, PlainPoint, Topic, number_of, numbered_mut, put,
};

// A point's charge: the account of those who are on record on the last day, the amount, and the determinant.
#[derive(Clone, Copy)]
pub struct PlainDue {
    pub account: PlainAccount,
    pub cents: i64,
    pub determinant: PlainPeak,
}

fn add_demands(sums: &mut DemandTable, table: &DemandTable) {
    for (row, demands) in sums.iter_mut().zip(table.iter()) {
        for (sum, demand) in row.iter_mut().zip(demands.iter()) {
            *sum = sum.saturating_add(*demand);
        }
    }
}

// (determinant × rate + 5,000,000) / 10,000,000, remainder dropped.
fn cents_of(quantity: u64, rate: u32) -> i64 {
    let cents = quantity
        .saturating_mul(u64::from(rate))
        .saturating_add(5_000_000)
        / 10_000_000;
    i64::try_from(cents).unwrap_or(i64::MAX)
}

// A network point is charged 650, a connection point 651 with a mark for line and 652 with one for transformation.
fn has_charge(point: PlainPoint, charge: u32) -> bool {
    match charge {
        650 => point.is_network(),
        651 => !point.is_network() && point.line,
        _ => !point.is_network() && point.transformation,
    }
}

impl Book {
    // A point's demand at every hour: that of the last sheet for the day.
    fn demands(&self, point: u32) -> DemandTable {
        let mut table = NO_DEMAND;
        for call in self.history.as_slice() {
            if let PlainCall::Post(sheet) = call
                && sheet.point == point
                && let Some(row) = numbered_mut(&mut table, sheet.day)
            {
                *row = sheet.hours.map(|reading| reading.demand());
            }
        }
        table
    }

    // The sum of the network points' demands.
    fn network_demands(&self) -> DemandTable {
        let mut sums = NO_DEMAND;
        for (i, point) in self.points.iter().enumerate() {
            if point.is_network() {
                add_demands(&mut sums, &self.demands(number_of(i)));
            }
        }
        sums
    }

    // The greatest sum of the network points' demands, over the whole month.
    pub fn system_peak(&self) -> PlainPeak {
        greatest(&self.network_demands(), &whole_month(self.month))
    }

    // The hours of the days on which a point has service on record.
    fn hours_in_service(&self, point: u32) -> HourTable {
        let entries = self.entries(Topic::Service);
        let first = self.first_day();
        table_of(self.month, |day| {
            let day = first.saturating_add(day).saturating_sub(1);
            let entry = latest_of(entries.as_slice(), point, day);
            [entry.is_some_and(|entry| entry.item[0] == 1); 24]
        })
    }

    // 100 × C at the system peak if that is at least 85 × Q, else 85 × Q at Q's own hour.
    fn network_determinant(
        &self,
        point: u32,
        system_peak: PlainPeak,
        admitted: &HourTable,
    ) -> PlainPeak {
        let table = self.demands(point);
        let at_peak = quantity_at(&table, system_peak.day, system_peak.hour).saturating_mul(100);
        let own = greatest(&table, admitted);
        let share = own.quantity.saturating_mul(85);
        if at_peak >= share {
            PlainPeak {
                quantity: at_peak,
                ..system_peak
            }
        } else {
            PlainPeak {
                quantity: share,
                ..own
            }
        }
    }

    // 100 × the greatest demand over the hours in service.
    fn connection_determinant(&self, point: u32) -> PlainPeak {
        let peak = greatest(&self.demands(point), &self.hours_in_service(point));
        PlainPeak {
            quantity: peak.quantity.saturating_mul(100),
            ..peak
        }
    }

    // What is on record on the last day, zeros where there is nothing.
    fn item(&self, topic: Topic, subject: u32) -> [u32; 3] {
        self.on_record(topic, subject, self.last_day())
            .map_or([0; 3], |entry| entry.item)
    }

    // The account of a point's charge and those who are on record.
    fn account(&self, point: u32, charge: u32) -> PlainAccount {
        let [customer, _, _] = self.item(Topic::Customer, point);
        let [transmitter, _, _] = self.item(Topic::Transmitter, point);
        PlainAccount {
            point,
            charge,
            customer,
            transmitter,
        }
    }

    fn rate(&self, charge: u32) -> u32 {
        let [network, line, transformation] = self.item(Topic::Rates, 0);
        match charge {
            650 => network,
            651 => line,
            _ => transformation,
        }
    }

    fn determinant(&self, point: u32, system_peak: PlainPeak, admitted: &HourTable) -> PlainPeak {
        match self.point(point) {
            Some(kind) if kind.is_network() => {
                self.network_determinant(point, system_peak, admitted)
            }
            _ => self.connection_determinant(point),
        }
    }

    // Every point's charges, by point, then charge.
    pub fn dues(&self) -> Vec<PlainDue> {
        let mut dues = Vec::new(self.heap);
        let system_peak = self.system_peak();
        let admitted = admitted_hours(self.brought.rule, self.month);
        for (i, point) in self.points.iter().enumerate() {
            let number = number_of(i);
            let determinant = self.determinant(number, system_peak, &admitted);
            for charge in 650..=652 {
                if has_charge(*point, charge) {
                    let due = PlainDue {
                        account: self.account(number, charge),
                        cents: cents_of(determinant.quantity, self.rate(charge)),
                        determinant,
                    };
                    put(&mut dues, due);
                }
            }
        }
        dues
    }
}

// What an account is due: the charge if both its parties are the ones on record, else nothing.
pub fn due_of(dues: &[PlainDue], account: PlainAccount) -> i64 {
    dues.iter()
        .find(|due| due.account == account)
        .map_or(0, |due| due.cents)
}
