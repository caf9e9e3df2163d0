// What is due for one charge of a point, and the account on record for it.
ghost use Rattle.std.specs.Prelude.{◌≡◌, true};
ghost use Rattle.ledger.specs.Lines.{sound_terms};

use crate::line::Account;

mod questions;

// What an account is due: an amount, and its determinant.
#[derive(Clone, Copy, Default)]
pub struct Terms {
    pub cents: i64,
    pub quantity: u64,
    pub day: u32,
    pub hour: u32,
}

// The amount is not negative, and every number is in its range.
#[derive(Clone, Copy)]
pub struct Due {
    account: Account,
    terms: Terms,
    ghost sound: { sound_terms account terms.cents terms.quantity terms.day terms.hour ≡ true },
}
