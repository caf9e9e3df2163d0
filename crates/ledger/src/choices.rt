// Choices of lines, whose cents are summed.
ghost use Rattle.std.specs.Prelude.{◌≡◌, Bool};
ghost use Rattle.ledger.specs.declared.line.Line.{Line};
ghost use Rattle.ledger.specs.Sums.{credited, on_account};

use crate::line::{Account, Line};
use tariff::charge::Charge;
use tariff::parties::PartyNumber;
use tariff::statement::Statement;

// A choice of lines. It is a trait and no closure, so that the contract of a sum can cite what is chosen.
pub(crate) trait Selects {
    ghost chosen: { Self → Line → Bool };

    fn selects(&self, line: &Line) -> bool
        ensures { result ≡ chosen self.now line.now };
}

// The lines of an account.
impl Selects for Account {
    ghost chosen = { on_account };

    fn selects(&self, line: &Line) -> bool {
        line.account() == *self
    }
}

// A statement's lines for one charge that credit a transmitter.
#[derive(Clone, Copy)]
pub(crate) struct CreditTo {
    pub(crate) statement: Statement,
    pub(crate) charge: Charge,
    pub(crate) transmitter: PartyNumber,
}

impl Selects for CreditTo {
    ghost chosen = { λ w. credited w.statement w.charge w.transmitter };

    fn selects(&self, line: &Line) -> bool {
        line.statement == self.statement
            && line.charge == self.charge
            && line.transmitter == self.transmitter
    }
}
