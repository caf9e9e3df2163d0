// What may be asked of an open month, and what it answers.
use tariff::parties::{PartyNumber, Rates, Service};
use tariff::reading::Sheet;
use tariff::refusal::Refusal;
use tariff::statement::Statement;

// The values are named as a caller says them: points, where a history has subjects; rates are of none.
#[derive(Clone, Copy)]
pub enum Call {
    Post(Sheet),
    Customer {
        point: u32,
        from_day: u32,
        party: PartyNumber,
    },
    Transmitter {
        point: u32,
        from_day: u32,
        party: PartyNumber,
    },
    Service {
        point: u32,
        from_day: u32,
        service: Service,
    },
    Rates {
        from_day: u32,
        rates: Rates,
    },
    Issue(Statement),
}

// A call, and what it was answered, once it is taken: how many lines it wrote, which for any call but an issue is none.
#[derive(Clone, Copy)]
pub struct JournalEntry {
    pub call: Call,
    pub outcome: Option<Result<usize, Refusal>>,
}
