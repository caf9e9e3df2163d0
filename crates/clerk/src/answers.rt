// What an open month answers to the commands of a job.
ghost use Rattle.std.specs.Prelude.{◌≡◌};
ghost use Rattle.job.specs.Said.{said};
ghost use Rattle.month.specs.States.{state_of};
ghost use Rattle.clerk.specs.Calls.{sheet_call, call_of, answer_to, called, moved, asked, replied, left};

use hours::rules::HourRule;
use job::command::Command;
use ledger::line::Account;
use month::calls::Call;
use month::month::OpenMonth;
use readings::readings::SheetStore;
use sheet_file::faults::FileFault;
use sheet_file::file::read_line;
use tariff::reading::Sheet;
use tariff::refusal::Refusal;

#[derive(Clone, Copy)]
pub enum Answer {
    Done,
    // How many lines a statement wrote.
    Lines(usize),
    Cents(i64),
    Peak { quantity: u64, day: u32, hour: u32 },
}

// The call that a line of a sheet file makes: a post, if it is a sheet.
pub(crate) fn sheet_call(outcome: Result<Sheet, FileFault>) -> Result<Call, Refusal>
    ensures { result ≡ sheet_call outcome }
{
    Ok(Call::Post(outcome?))
}

// The call that a command on the line of number `line` makes of an open month, if it makes one. Command and call are two
// types, since who reads a job knows nothing of months, and a month nothing of jobs.
fn call_of(line: u64, command: Command) -> Option<Result<Call, Refusal>>
    ensures { result ≡ call_of line (said command.entry) }
{
    match command {
        Command::Sheet(text) => Some(sheet_call(read_line(line, text))),
        Command::Customer {
            point,
            from_day,
            party,
        } => Some(Ok(Call::Customer {
            point,
            from_day,
            party,
        })),
        Command::Transmitter {
            point,
            from_day,
            party,
        } => Some(Ok(Call::Transmitter {
            point,
            from_day,
            party,
        })),
        Command::Service {
            point,
            from_day,
            service,
        } => Some(Ok(Call::Service {
            point,
            from_day,
            service,
        })),
        Command::Rates { from_day, rates } => Some(Ok(Call::Rates { from_day, rates })),
        Command::Issue(statement) => Some(Ok(Call::Issue(statement))),
        _ => None,
    }
}

// A statement's answer tells how many lines it wrote.
fn answer_to(call: Call, lines: usize) -> Answer
    ensures { result ≡ answer_to call lines }
{
    match call {
        Call::Issue(_) => Answer::Lines(lines),
        _ => Answer::Done,
    }
}

// What a month, open or closed, answers to a question; None where the command is none.
pub fn ask<S: SheetStore, H: HourRule>(
    month: &OpenMonth<S, H>,
    command: Command,
) -> Option<Result<Answer, Refusal>>
    ensures { result ≡ asked (state_of S.Readings.meaning H.HourRule.admits month.now) (said command.entry) }
{
    match command {
        Command::Credit {
            statement,
            charge,
            transmitter,
        } => {
            let sum = month.credit(statement, charge, transmitter);
            Some(sum.map(Answer::Cents))
        }
        Command::Total {
            point,
            charge,
            customer,
            transmitter,
        } => {
            let account = Account {
                point,
                charge,
                customer,
                transmitter,
            };
            let sum = month.total(&account);
            Some(sum.map(Answer::Cents))
        }
        Command::Peak => {
            let (quantity, day, hour) = month.peak();
            Some(Ok(Answer::Peak {
                quantity,
                day,
                hour,
            }))
        }
        _ => None,
    }
}

// Makes a call of an open month, where there is one and not a refusal.
pub(crate) fn make_call<S: SheetStore, H: HourRule>(
    month: &mut OpenMonth<S, H>,
    call: Result<Call, Refusal>,
) -> Result<Answer, Refusal>
    ensures answer { result ≡ called (state_of S.Readings.meaning H.HourRule.admits month.old) call }
    ensures state { state_of S.Readings.meaning H.HourRule.admits month.new ≡ moved (state_of S.Readings.meaning H.HourRule.admits month.old) call }
{
    let call = call?;
    let lines = month.take(call)?;
    Ok(answer_to(call, lines))
}

// What an open month answers to the command on the line of number `line`; None where it is neither a call nor a question,
// and then the month is as it was.
pub fn take<S: SheetStore, H: HourRule>(
    month: &mut OpenMonth<S, H>,
    line: u64,
    command: Command,
) -> Option<Result<Answer, Refusal>>
    ensures answer { result ≡ replied line (state_of S.Readings.meaning H.HourRule.admits month.old) (said command.entry) }
    ensures state { state_of S.Readings.meaning H.HourRule.admits month.new ≡ left line (state_of S.Readings.meaning H.HourRule.admits month.old) (said command.entry) }
{
    match call_of(line, command) {
        Some(call) => Some(make_call(month, call)),
        None => ask(month, command),
    }
}
