// Statements: whether one may be issued, and the lines that it writes.
use super::book::Book;
use super::owed::PlainDue;
use super::soundness::{LINES_LIMIT, is_within_limit, ledger_is_sound, shelf_is_sound};
use crate::plain::{
    PlainAccount, PlainCall, PlainLine, PlainPeak, Refused, Topic, front, number_of, numbered_mut,
    put, put_all,
};

impl PlainDue {
    // What brings an account of the due's point and charge from its total to what it is due: the amount for the parties on
    // record, nothing for others.
    fn line(&self, rank: u32, account: PlainAccount, total: i64) -> PlainLine {
        let (cents, determinant) = if account == self.account {
            (self.cents, self.determinant)
        } else {
            (0, PlainPeak::default())
        };
        PlainLine {
            rank,
            account,
            cents: cents.saturating_sub(total),
            determinant,
        }
    }
}

impl Book {
    // P comes first, F next, then any of higher rank than the last issued.
    fn is_in_turn(&self, rank: u32) -> bool {
        match self.last {
            None => rank == 0,
            Some(0) => rank == 1,
            Some(last) => rank > last,
        }
    }

    // 17 where the ledger that was brought is unsound.
    pub fn judge_ledger(&self) -> Result<(), Refused> {
        if ledger_is_sound(&self.brought.ledger) {
            Ok(())
        } else {
            Err(Refused::of(17))
        }
    }

    pub fn has_sound_histories(&self) -> bool {
        [
            Topic::Customer,
            Topic::Transmitter,
            Topic::Service,
            Topic::Rates,
        ]
        .iter()
        .all(|topic| shelf_is_sound(*topic, self.shelf(*topic)))
    }

    // The first day of a point that has no sheet.
    fn missing_day(&self, point: u32) -> Option<u32> {
        let mut posted = [false; 31];
        for call in self.history.as_slice() {
            if let PlainCall::Post(sheet) = call
                && sheet.point == point
                && let Some(is_posted) = numbered_mut(&mut posted, sheet.day)
            {
                *is_posted = true;
            }
        }
        posted
            .iter()
            .take(self.days() as usize)
            .position(|is_posted| !*is_posted)
            .map(number_of)
    }

    // 15 for the first missing sheet, by point and day.
    fn judge_sheets(&self) -> Result<(), Refused> {
        for point in 1..=self.count() {
            if let Some(day) = self.missing_day(point) {
                return Err(Refused::at(15, u64::from(point), u64::from(day)));
            }
        }
        Ok(())
    }

    // 16 where nothing is on record of a subject on the last day.
    fn judge_record(&self, topic: Topic, subject: u32) -> Result<(), Refused> {
        match self.on_record(topic, subject, self.last_day()) {
            Some(_) => Ok(()),
            None => Err(Refused::at(16, u64::from(subject), 0)),
        }
    }

    // Rates, then by point customer and transmitter.
    fn judge_records(&self) -> Result<(), Refused> {
        self.judge_record(Topic::Rates, 0)?;
        for point in 1..=self.count() {
            self.judge_record(Topic::Customer, point)?;
            self.judge_record(Topic::Transmitter, point)?;
        }
        Ok(())
    }

    fn judge_issue(&self, rank: u32) -> Result<(), Refused> {
        if !self.is_in_turn(rank) {
            return Err(Refused::of(14));
        }
        self.judge_fit()?;
        self.judge_ledger()?;
        if !self.has_sound_histories() {
            return Err(Refused::of(17));
        }
        self.judge_sheets()?;
        self.judge_records()
    }

    // Credits and totals are refused over an unsound ledger.
    pub fn judge_amount(&self, cents: i64) -> Result<i64, Refused> {
        self.judge_ledger()?;
        Ok(cents)
    }

    // The sum of the cents of an account's lines.
    pub fn total(&self, account: PlainAccount) -> i64 {
        self.lines
            .iter()
            .filter(|line| line.account == account)
            .fold(0, |sum: i64, line| sum.saturating_add(line.cents))
    }

    // The sum of the cents of a statement's lines for a charge and a transmitter.
    pub fn credit(&self, rank: u32, charge: u32, transmitter: u32) -> i64 {
        self.lines
            .iter()
            .filter(|line| {
                line.rank == rank
                    && line.account.charge == charge
                    && line.account.transmitter == transmitter
            })
            .fold(0, |sum: i64, line| sum.saturating_add(line.cents))
    }

    // The lines of one due: for the accounts in the ledger in the order of their first line, then for the one on record. An account
    // that is at what it is due has no line.
    fn write_due(&self, lines: &mut Vec<PlainLine>, rank: u32, due: &PlainDue) {
        let written = self.lines.as_slice();
        for (i, line) in written.iter().enumerate() {
            let account = line.account;
            if account.point == due.account.point
                && account.charge == due.account.charge
                && !is_among(front(written, i), account)
            {
                put_line(lines, due.line(rank, account, self.total(account)));
            }
        }
        if !is_among(written, due.account) {
            put_line(lines, due.line(rank, due.account, 0));
        }
    }

    fn statement_lines(&self, rank: u32) -> Vec<PlainLine> {
        let mut lines = Vec::new(self.heap);
        for due in self.dues().as_slice() {
            self.write_due(&mut lines, rank, due);
        }
        lines
    }

    // Issues a statement. All lines are tested, 19 and then 18, before any is written.
    pub fn issue(&mut self, rank: u32) -> Result<usize, Refused> {
        self.judge_issue(rank)?;
        let lines = self.statement_lines(rank);
        if !lines.iter().all(|line| is_within_limit(line.cents)) {
            return Err(Refused::of(19));
        }
        let after = self.lines.len().saturating_add(lines.len());
        if after > self.brought.ledger.memory.len() || after > LINES_LIMIT {
            return Err(Refused::of(18));
        }
        put_all(&mut self.lines, lines.as_slice());
        self.last = Some(rank);
        Ok(lines.len())
    }
}

fn is_among(lines: &[PlainLine], account: PlainAccount) -> bool {
    lines.iter().any(|line| line.account == account)
}

fn put_line(lines: &mut Vec<PlainLine>, line: PlainLine) {
    if line.cents != 0 {
        put(lines, line);
    }
}
