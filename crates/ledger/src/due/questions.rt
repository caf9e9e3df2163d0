// How a due is made, and what it means for an account.
ghost use Rattle.std.specs.Prelude.{◌≡◌};
ghost use Rattle.ledger.specs.Dues.{facts_of, facts_if, due_from};
ghost use Rattle.ledger.specs.Issues.{covers, is_on_record, terms_of};

use super::{Due, Terms};
use crate::line::{Account, MAX_CENTS, is_sound_reading};

impl Due {
    // None if a number is out of its range.
    pub fn new(account: Account, terms: Terms) -> Option<Due>
        ensures { facts_if result ≡ due_from account terms.cents terms.quantity terms.day terms.hour }
    {
        let parties = account.is_sound();
        let amount = (0..=MAX_CENTS).contains(&terms.cents);
        let reading = is_sound_reading(terms.quantity, terms.day, terms.hour);
        if parties && amount && reading {
            return Some(Due { account, terms });
        }
        None
    }

    // The account on record.
    pub(crate) fn account(&self) -> Account
        ensures { result ≡ (facts_of self.now).account }
    {
        self.account
    }

    // Whether an account is for the same charge of the same point.
    pub(crate) fn covers(&self, account: &Account) -> bool
        ensures { result ≡ covers (facts_of self.now) account.now }
    {
        self.account.point == account.point && self.account.charge == account.charge
    }

    fn is_on_record(&self, account: &Account) -> bool
        ensures { result ≡ is_on_record (facts_of self.now) account.now }
    {
        self.account.customer == account.customer && self.account.transmitter == account.transmitter
    }

    // All of it if both parties are the ones on record, else nothing.
    pub(crate) fn terms(&self, account: &Account) -> Terms
        ensures { result ≡ terms_of (facts_of self.now) account.now }
    {
        if self.is_on_record(account) {
            self.terms
        } else {
            Terms::default()
        }
    }
}
