// The memory that a month is lent.
use job::command::{Places, StoreKind};
use ledger::line::{Line, MAX_LINES};
use records::dated::Dated;
use records::range::LAST_FROM_DAY;
use std::alloc::{AllocError, Global};
use stores::row_store::Row;
use tariff::parties::{PartyNumber, Rates, Service};

// The places of a month whose job asks for none.
const USUAL: Places = Places {
    customers: 20_000,
    transmitters: 20_000,
    service: 20_000,
    rates: 1_000,
    ledger: MAX_LINES as u32,
};

// For the sheets.
#[derive(Drop)]
pub(crate) enum SheetMemory {
    Table(Vec<u32>),
    Rows(Vec<Row>),
}

impl SheetMemory {
    pub(crate) fn new(
        heap: Global,
        store: StoreKind,
        points: u32,
        days: u32,
    ) -> Result<SheetMemory, AllocError> {
        let sheets = points.saturating_mul(days) as usize;
        match store {
            StoreKind::Table => {
                let words = vec![in heap; 0u32; sheets.saturating_mul(24)]?;
                Ok(SheetMemory::Table(words))
            }
            StoreKind::Rows => Ok(SheetMemory::Rows(vec![in heap; Row::EMPTY; sheets]?)),
        }
    }
}

// For the histories and the ledger.
#[derive(Drop)]
pub(crate) struct Memory {
    pub(crate) customers: Vec<Dated<PartyNumber>>,
    pub(crate) transmitters: Vec<Dated<PartyNumber>>,
    pub(crate) service: Vec<Dated<Service>>,
    pub(crate) rates: Vec<Dated<Rates>>,
    pub(crate) lines: Vec<Line>,
}

// Places that could never be in use are not taken: a subject has one entry for each day number at the most.
fn entries(asked: u32, subjects: u32) -> usize {
    let most = u64::from(subjects) * (u64::from(LAST_FROM_DAY) + 1);
    u64::from(asked).min(most) as usize
}

impl Memory {
    // For a month of so many points.
    pub(crate) fn new(
        heap: Global,
        points: u32,
        places: Option<Places>,
    ) -> Result<Memory, AllocError> {
        let places = places.unwrap_or(USUAL);
        Ok(Memory {
            customers: vec![in heap; Dated::default(); entries(places.customers, points)]?,
            transmitters: vec![in heap; Dated::default(); entries(places.transmitters, points)]?,
            service: vec![in heap; Dated::default(); entries(places.service, points)]?,
            rates: vec![in heap; Dated::default(); entries(places.rates, 1)]?,
            lines: vec![in heap; Line::EMPTY; (places.ledger as usize).min(MAX_LINES)]?,
        })
    }
}
