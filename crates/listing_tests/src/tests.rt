use ledger::ledger::Ledger;
use ledger::line::{Line, MAX_CENTS, MAX_QUANTITY};
use listing::listing::write_listing;
use tariff::charge::Charge;
use tariff::parties::{MAX_PARTY, PartyNumber};
use tariff::points::MAX_POINTS;
use tariff::refusal::Refusal;
use tariff::statement::Statement;

const LINES: [Line; 2] = [
    Line {
        statement: Statement::P,
        point: MAX_POINTS,
        charge: Charge::Transformation,
        customer: PartyNumber { number: MAX_PARTY },
        transmitter: PartyNumber { number: MAX_PARTY },
        cents: MAX_CENTS,
        quantity: MAX_QUANTITY,
        day: 31,
        hour: 24,
    },
    Line {
        statement: Statement::RF,
        point: 1,
        charge: Charge::Network,
        customer: PartyNumber { number: MAX_PARTY },
        transmitter: PartyNumber { number: 1 },
        cents: -MAX_CENTS,
        quantity: 0,
        day: 0,
        hour: 0,
    },
];

const LISTING: &[u8] =
    b"type|point|charge|customer|transmitter|cents|quantity|day|hour\nP|400|652|999999999|999999999|9999999900|9999999900|31|24\nRF|1|650|999999999|1|-9999999900|0|0|0\n";

#[test]
fn a_listing_is_written_where_it_just_fits(rt: HostRuntime) {
    let mut lines = LINES;
    let ledger = Ledger::over(&mut lines, 2);
    let mut out = [b'x'; 160];
    assert!(rt; matches!(write_listing(&ledger, &mut out), Ok(160)));
    assert!(rt; &out[..] == LISTING);
}

#[test]
fn a_refused_listing_writes_nothing(rt: HostRuntime) {
    let mut lines = LINES;
    let ledger = Ledger::over(&mut lines, 2);
    let mut out = [b'x'; 159];
    assert!(rt; matches!(write_listing(&ledger, &mut out), Err(Refusal::TextTooShort)));
    assert!(rt; out[..] == [b'x'; 159][..]);
    let unsound = Ledger::over(&mut lines, 3);
    assert!(rt; matches!(write_listing(&unsound, &mut out), Err(Refusal::Unsound)));
    assert!(rt; out[..] == [b'x'; 159][..]);
}
