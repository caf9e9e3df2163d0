// A ledger over memory that the caller lends, with any contents, and a count of how many of its lines are in use.
ghost use Rattle.std.specs.Prelude.{◌≡◌, ◌+◌, true, is_ok, IfOk};
ghost use Rattle.std.specs.List.{AllByRecursion};
ghost use Rattle.tariff.specs.Shelves.{items};
ghost use Rattle.std.specs.Result.{result_map_both};
ghost use Rattle.ledger.specs.Dues.{all_facts};
ghost use Rattle.ledger.specs.Sums.{credit_of, total_of};
ghost use Rattle.ledger.specs.Balances.{Balanced};
ghost use Rattle.ledger.specs.Issues.{distinct, Settled, Unmoved};
ghost use Rattle.ledger.specs.Ledgers.{shelf_of, sound_ledger, if_sound, issue_answer, issued};
ghost use Rattle.ledger.specs.Walks.{lines_of};

use crate::choices::CreditTo;
use crate::due::Due;
use crate::line::{Account, Line, MAX_LINES};
use crate::new_lines::{NewLines, count_lines, write_lines};
use crate::sound_lines::SoundLines;
use tariff::charge::Charge;
use tariff::parties::PartyNumber;
use tariff::refusal::Refusal;
use tariff::statement::Statement;

// Writes the lines that a statement adds behind the lines in use, and answers how many they are.
// Refuses lines in use that are not sound, then an increment beyond the limit of a line, then more lines than there are
// places left of the memory or of the limit.
fn write_issue(
    memory: &mut [Line],
    used: usize,
    statement: Statement,
    dues: &[Due],
) -> Result<usize, Refusal>
    ensures answer { result ≡ issue_answer (record { memory = memory.old; used = used }) statement (all_facts dues.now) }
    ensures after { memory.new ≡ (issued (record { memory = memory.old; used = used }) statement (all_facts dues.now)).memory }
{
    let (lines, room) = memory.split_at_mut_checked(used).ok_or(Refusal::Unsound)?;
    let lines = SoundLines::new(lines).ok_or(Refusal::Unsound)?;
    let needed = count_lines(NewLines::new(lines, statement, dues)).ok_or(
        Refusal::IncrementTooLarge,
    )?;
    if needed > room.len() || needed > MAX_LINES - used {
        return Err(Refusal::LedgerFull);
    }
    write_lines(NewLines::new(lines, statement, dues), room);
    Ok(needed)
}

#[derive(Drop)]
pub struct Ledger<'a> {
    lines: &'a mut [Line],
    used: usize,
}

impl<'a> Ledger<'a> {
    // The ledger of the first `used` lines.
    pub fn over(lines: &'a mut [Line], used: usize) -> Ledger<'a>
        ensures shelf { shelf_of result ≡ record { memory = lines.old; used = used } }
        ensures lender { result.lines.ghost_name ≡ lines.entry.ghost_name }
    {
        Ledger { lines, used }
    }
}

impl Ledger<'_> {
    // How many lines are in use.
    pub fn used(&self) -> usize
        ensures { result ≡ (shelf_of self.now).used }
    {
        self.used
    }

    // The lines in use.
    pub fn lines(&self) -> &[Line]
        ensures { result.now ≡ items (shelf_of self.now) }
    {
        let lines = &*self.lines;
        &lines[..self.used.min(lines.len())]
    }

    // Refuses more in use than the memory has or than a ledger may have, and a number out of its range in a line in use.
    fn sound_lines(&self) -> Result<SoundLines<'_>, Refusal>
        ensures { result_map_both lines_of (λ e. e) result ≡ if_sound (shelf_of self.now) (items (shelf_of self.now)) }
    {
        let lines = self.lines.get(..self.used).ok_or(Refusal::Unsound)?;
        SoundLines::new(lines).ok_or(Refusal::Unsound)
    }

    // Refuses an unsound ledger.
    pub fn check(&self) -> Result<(), Refusal>
        ensures { result ≡ if_sound (shelf_of self.now) tt }
    {
        self.sound_lines()?;
        Ok(())
    }

    // The sum of the cents of an account's lines.
    pub fn total(&self, account: &Account) -> Result<i64, Refusal>
        ensures { result ≡ if_sound (shelf_of self.now) (total_of account.now (items (shelf_of self.now))) }
    {
        let lines = self.sound_lines()?;
        Ok(lines.cents(account))
    }

    // The sum of the cents of a statement's lines for a charge and a transmitter.
    // Over all transmitters the credits are what all customers are debited.
    pub fn credit(
        &self,
        statement: Statement,
        charge: Charge,
        transmitter: PartyNumber,
    ) -> Result<i64, Refusal>
        ensures value { result ≡ if_sound (shelf_of self.now) (credit_of statement charge transmitter (items (shelf_of self.now))) }
        ensures balanced { sound_ledger (shelf_of self.now) ≡ true → Balanced (items (shelf_of self.now)) }
    {
        let lines = self.sound_lines()?;
        let which = CreditTo {
            statement,
            charge,
            transmitter,
        };
        Ok(lines.cents(&which))
    }

    // Issues a statement: due by due, a line for each account that is not at what it is due, first for the accounts
    // with lines in the order of their first, then for the one on record if it is new. Answers how many lines it wrote.
    pub fn issue(&mut self, statement: Statement, dues: &[Due]) -> Result<usize, Refusal>
        ensures answer { result ≡ issue_answer (shelf_of self.old) statement (all_facts dues.now) }
        ensures after { shelf_of self.new ≡ issued (shelf_of self.old) statement (all_facts dues.now) }
        ensures lender { self.new.lines.ghost_name ≡ self.old.lines.ghost_name }
        ensures written { IfOk result (λ n. (shelf_of self.new).used ≡ (shelf_of self.old).used + n) }
        ensures sound { is_ok result ≡ true → sound_ledger (shelf_of self.new) ≡ true }
        ensures settled { is_ok result ≡ true → distinct (all_facts dues.now) ≡ true → AllByRecursion (Settled (items (shelf_of self.new))) (all_facts dues.now) }
        ensures unmoved { is_ok result ≡ true → Unmoved (all_facts dues.now) (items (shelf_of self.old)) (items (shelf_of self.new)) }
    {
        let count = write_issue(self.lines, self.used, statement, dues)?;
        self.used += count;
        Ok(count)
    }
}
