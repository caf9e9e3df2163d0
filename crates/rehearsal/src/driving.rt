// The library's side: plain values are turned into the library's, and its answers into plain ones.
use crate::plain::{
    Answer, PlainAccount, PlainCall, PlainEntry, PlainLine, PlainPoint, PlainReading, PlainSheet,
    Refused, Shelf, Topic, put,
};
use ledger::line::{Account, Line};
use month::calls::Call;
use records::dated::Dated;
use std::alloc::Global;
use tariff::charge::Charge;
use tariff::parties::{PartyNumber, Rates, Service};
use tariff::points::Declaration;
use tariff::reading::{Reading, Sheet};
use tariff::refusal::Refusal;
use tariff::statement::Statement;

// By its rank; the book's ranks are 0 to 8.
pub fn statement_of(rank: u32) -> Statement {
    match rank {
        0 => Statement::P,
        1 => Statement::F,
        2 => Statement::R1,
        3 => Statement::R2,
        4 => Statement::R3,
        5 => Statement::R4,
        6 => Statement::R5,
        7 => Statement::R6,
        _ => Statement::RF,
    }
}

// By the number under which it is billed; the book's charges are 650 to 652.
pub fn charge_of(number: u32) -> Charge {
    match number {
        650 => Charge::Network,
        651 => Charge::Line,
        _ => Charge::Transformation,
    }
}

impl From<PlainAccount> for Account {
    fn from(account: PlainAccount) -> Account {
        Account {
            point: account.point,
            charge: charge_of(account.charge),
            customer: PartyNumber {
                number: account.customer,
            },
            transmitter: PartyNumber {
                number: account.transmitter,
            },
        }
    }
}

impl From<PlainReading> for Reading {
    fn from(reading: PlainReading) -> Reading {
        match reading {
            PlainReading::Withdrawal(quantity) => Reading::Withdrawal(quantity),
            PlainReading::Injection(quantity) => Reading::Injection(quantity),
        }
    }
}

impl From<PlainSheet> for Sheet {
    fn from(sheet: PlainSheet) -> Sheet {
        Sheet {
            point: sheet.point,
            day: sheet.day,
            readings: sheet.hours.map(Reading::from),
        }
    }
}

impl From<PlainEntry> for PartyNumber {
    fn from(entry: PlainEntry) -> PartyNumber {
        let [number, _, _] = entry.item;
        PartyNumber { number }
    }
}

impl From<PlainEntry> for Service {
    fn from(entry: PlainEntry) -> Service {
        Service {
            in_service: entry.item[0] == 1,
        }
    }
}

impl From<PlainEntry> for Rates {
    fn from(entry: PlainEntry) -> Rates {
        let [network, line, transformation] = entry.item;
        Rates {
            network,
            line,
            transformation,
        }
    }
}

fn entry_of(topic: Topic, entry: PlainEntry) -> Call {
    let point = entry.subject;
    let from_day = entry.from_day;
    match topic {
        Topic::Customer => Call::Customer {
            point,
            from_day,
            party: entry.into(),
        },
        Topic::Transmitter => Call::Transmitter {
            point,
            from_day,
            party: entry.into(),
        },
        Topic::Service => Call::Service {
            point,
            from_day,
            service: entry.into(),
        },
        Topic::Rates => Call::Rates {
            from_day,
            rates: entry.into(),
        },
    }
}

impl From<PlainCall> for Call {
    fn from(call: PlainCall) -> Call {
        match call {
            PlainCall::Post(sheet) => Call::Post(sheet.into()),
            PlainCall::Enter(topic, entry) => entry_of(topic, entry),
            PlainCall::Issue(rank) => Call::Issue(statement_of(rank)),
        }
    }
}

impl From<PlainLine> for Line {
    fn from(line: PlainLine) -> Line {
        let account = Account::from(line.account);
        Line {
            statement: statement_of(line.rank),
            point: account.point,
            charge: account.charge,
            customer: account.customer,
            transmitter: account.transmitter,
            cents: line.cents,
            quantity: line.determinant.quantity,
            day: line.determinant.day,
            hour: line.determinant.hour,
        }
    }
}

impl From<Refusal> for Refused {
    fn from(refusal: Refusal) -> Refused {
        let number = refusal.number();
        match refusal {
            Refusal::QuantityTooLarge { hour } => Refused::at(number, u64::from(hour), 0),
            Refusal::SheetMissing { point, day } => {
                Refused::at(number, u64::from(point), u64::from(day))
            }
            Refusal::NothingOnRecord { point } => Refused::at(number, u64::from(point), 0),
            Refusal::NotTwentySixValues { line } => Refused::at(number, line, 0),
            Refusal::MalformedValue { place, line } => Refused::at(number, u64::from(place), line),
            _ => Refused::of(number),
        }
    }
}

impl From<PlainPoint> for Declaration {
    fn from(point: PlainPoint) -> Declaration {
        Declaration {
            letter: point.letter,
            line: point.line,
            transformation: point.transformation,
        }
    }
}

impl From<Reading> for Answer {
    fn from(reading: Reading) -> Answer {
        Answer::Reading(match reading {
            Reading::Withdrawal(quantity) => PlainReading::Withdrawal(quantity),
            Reading::Injection(quantity) => PlainReading::Injection(quantity),
        })
    }
}

impl From<PartyNumber> for Answer {
    fn from(party: PartyNumber) -> Answer {
        Answer::Item([party.number, 0, 0])
    }
}

impl From<Service> for Answer {
    fn from(service: Service) -> Answer {
        Answer::Item([u32::from(service.in_service), 0, 0])
    }
}

impl From<Rates> for Answer {
    fn from(rates: Rates) -> Answer {
        Answer::Item([rates.network, rates.line, rates.transformation])
    }
}

impl<T: From<PlainEntry>> From<PlainEntry> for Dated<T> {
    fn from(entry: PlainEntry) -> Dated<T> {
        Dated {
            subject: entry.subject,
            from_day: entry.from_day,
            item: T::from(entry),
        }
    }
}

// The memory of a history or a ledger, with the plain items in it.
pub fn memory_of<P: Copy, T: From<P> + Drop>(heap: Global, shelf: &Shelf<P>) -> Vec<T> {
    let mut memory = Vec::new(heap);
    for item in shelf.memory.as_slice() {
        put(&mut memory, T::from(*item));
    }
    memory
}
