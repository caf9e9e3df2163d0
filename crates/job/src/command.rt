// What a line of a job asks for.
use std::fmt;
use tariff::charge::Charge;
use tariff::parties::{PartyNumber, Rates, Service};
use tariff::points::Declaration;
use tariff::statement::Statement;

// How the sheets of a month are kept.
#[derive(Clone, Copy)]
pub enum StoreKind {
    Table,
    Rows,
}

// How many entries the histories and the ledger have room for.
#[derive(Clone, Copy)]
pub struct Places {
    pub customers: u32,
    pub transmitters: u32,
    pub service: u32,
    pub rates: u32,
    pub ledger: u32,
}

// A call of a month. Numbers are as written, whether or not the call refuses them.
#[derive(Clone, Copy)]
pub enum Command<'a> {
    // The marked days as masks, the lowest bit for day 1.
    Month {
        year: u32,
        month: u32,
        holidays: u32,
        summer: u32,
    },
    Point(Declaration),
    Open {
        store: StoreKind,
        places: Option<Places>,
    },
    Customer {
        point: u32,
        from_day: u32,
        party: PartyNumber,
    },
    Transmitter {
        point: u32,
        from_day: u32,
        party: PartyNumber,
    },
    Service {
        point: u32,
        from_day: u32,
        service: Service,
    },
    Rates {
        from_day: u32,
        rates: Rates,
    },
    // A line of a sheet file.
    Sheet(&'a [u8]),
    // The name of a sheet file.
    Sheets(&'a [u8]),
    Issue(Statement),
    Credit {
        statement: Statement,
        charge: Charge,
        transmitter: PartyNumber,
    },
    Total {
        point: u32,
        charge: Charge,
        customer: PartyNumber,
        transmitter: PartyNumber,
    },
    Peak,
    Listing,
    Close,
}

// Why a line is no call. A value's place is counted from 1, the first after the call's name.
#[derive(Clone, Copy)]
pub enum Malformed {
    UnknownCall,
    WrongCount,
    BadValue(u8),
}

impl fmt::Display for Malformed {
    fn fmt<W: fmt::Write>(&self, f: &mut fmt::Formatter<W>) -> fmt::Result {
        match *self {
            Malformed::UnknownCall => f.write_str("there is no such call"),
            Malformed::WrongCount => f.write_str("the call takes another number of values"),
            Malformed::BadValue(place) => write!(f, "value {place} is malformed"),
        }
    }
}

// The name of a call.
#[derive(Clone, Copy)]
pub(crate) enum Word {
    Month,
    Point,
    Open,
    Customer,
    Transmitter,
    Service,
    Rates,
    Sheet,
    Sheets,
    Issue,
    Credit,
    Total,
    Peak,
    Listing,
    Close,
}
