// What has been compared so far, and the first difference.
use crate::plain::{Answer, Matter};

const REFUSAL_NUMBERS: usize = 23;

// Where the two sides differ. Months are counted from 1, and calls from 1 in each month.
#[derive(Clone, Copy)]
pub struct Difference {
    pub month: u32,
    pub call: u32,
    pub matter: Matter,
    pub library: Answer,
    pub second: Answer,
}

#[derive(Drop, Default)]
pub struct Tally {
    pub months: u32,
    // Months that came to RF in both orders.
    pub both_orders: u32,
    pub calls: u32,
    pub statements: u32,
    pub file_lines: u32,
    pub answers: u32,
    // How often each refusal was met, by its number.
    pub refusals: [u32; REFUSAL_NUMBERS],
    pub call: u32,
    pub difference: Option<Difference>,
}

impl Tally {
    pub fn begin_month(&mut self) {
        self.months = self.months.saturating_add(1);
        self.call = 0;
    }

    pub fn begin_call(&mut self) {
        self.calls = self.calls.saturating_add(1);
        self.call = self.call.saturating_add(1);
    }

    fn count_refusal(&mut self, number: u32) {
        if let Some(count) = self.refusals.get_mut(number as usize) {
            *count = count.saturating_add(1);
        }
    }

    // Holds what the library answers against what the second calculation says, and keeps the first difference:
    // what follows in the month is compared all the same, so no comparison has to hand one up.
    pub fn compare<L: Into<Answer>, S: Into<Answer>>(
        &mut self,
        matter: Matter,
        library: L,
        second: S,
    ) {
        self.compare_answers(matter, library.into(), second.into());
    }

    fn compare_answers(&mut self, matter: Matter, library: Answer, second: Answer) {
        self.answers = self.answers.saturating_add(1);
        if let Answer::Refused(refused) = second {
            self.count_refusal(refused.number);
        }
        if library != second && self.difference.is_none() {
            self.difference = Some(Difference {
                month: self.months,
                call: self.call,
                matter,
                library,
                second,
            });
        }
    }
}
