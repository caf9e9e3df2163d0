// The accounts of a due, and the line that each calls for.
ghost use Rattle.std.specs.Prelude.{◌≡◌, ◌+◌, ◌≤◌, ◌++◌, length};
ghost use Rattle.std.specs.Option.{option_to_list};
ghost use Rattle.ledger.specs.Lines.{any};
ghost use Rattle.ledger.specs.Dues.{facts_of};
ghost use Rattle.ledger.specs.Sums.{on_account};
ghost use Rattle.ledger.specs.Issues.{entry_for, opens};
ghost use Rattle.ledger.specs.Passes.{accounts_left, lines_left};

use super::SoundLines;
use crate::due::Due;
use crate::line::{Account, Line};
use tariff::statement::Statement;

fn has_account(lines: &[Line], account: &Account) -> bool
    ensures { result ≡ any (on_account account.now) lines.now }
{
    lines.iter().any(|line| line.account() == *account)
}

// Whether an account is one of the due's and has no line before.
fn opens(due: &Due, before: &[Line], account: &Account) -> bool
    ensures { result ≡ opens (facts_of due.now) before.now account.now }
{
    due.covers(account) && !has_account(before, account)
}

impl SoundLines<'_> {
    // The account that a due's walk over the lines meets at a place, if it is met there first.
    // The place past the last line is that of the account on record.
    fn account_at(&self, due: &Due, place: usize) -> Option<Account>
        requires { place ≤ length self.now.lines.now }
        ensures { accounts_left (facts_of due.now) self.now.lines.now place ≡ option_to_list result ++ accounts_left (facts_of due.now) self.now.lines.now (place + 1) }
    {
        let lines = self.lines;
        if place == lines.len() {
            let account = due.account();
            return (!has_account(lines, &account)).then_some(account);
        }
        let account = lines[place].account();
        opens(due, &lines[..place], &account).then_some(account)
    }

    // The line that brings an account to what it is due, if it is not there already.
    fn entry_for(&self, statement: Statement, due: &Due, account: &Account) -> Option<Line>
        ensures { option_to_list result ≡ entry_for statement self.now.lines.now (facts_of due.now) account.now }
    {
        let terms = due.terms(account);
        let cents = terms.cents - self.cents(account);
        if cents == 0 {
            return None;
        }
        Some(Line {
            statement,
            point: account.point,
            charge: account.charge,
            customer: account.customer,
            transmitter: account.transmitter,
            cents,
            quantity: terms.quantity,
            day: terms.day,
            hour: terms.hour,
        })
    }

    // The line that a due's walk calls for at a place, if any.
    pub(crate) fn line_at(&self, statement: Statement, due: &Due, place: usize) -> Option<Line>
        requires { place ≤ length self.now.lines.now }
        ensures { lines_left statement self.now.lines.now (facts_of due.now) place ≡ option_to_list result ++ lines_left statement self.now.lines.now (facts_of due.now) (place + 1) }
    {
        let account = self.account_at(due, place)?;
        self.entry_for(statement, due, &account)
    }
}
