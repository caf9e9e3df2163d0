// One value of a line.
ghost use Rattle.std.specs.Prelude.{◌≡◌, min};
ghost use Rattle.std.specs.Option.{ok_or};
ghost use Rattle.text.specs.Format.{number_of};
ghost use Rattle.sheet_file.specs.Values.{Spelled, reading_of};

use crate::faults::{Spot, ValueFault};
use tariff::reading::Reading;
use text::digits::number;

// A value as the part of the file that it came from: what follows the letter, or all.
#[derive(Clone, Copy)]
pub(crate) enum Value<'a> {
    Withdrawal(&'a [u8]),
    Injection(&'a [u8]),
    Number(&'a [u8]),
}

pub(crate) fn value_of(text: &[u8]) -> Value<'_>
    ensures { Spelled result text.now }
{
    match text {
        [b'W', digits @ ..] => Value::Withdrawal(digits),
        [b'I', digits @ ..] => Value::Injection(digits),
        _ => Value::Number(text),
    }
}

// A number of 1 to `most` digits.
pub(crate) fn number_at(spot: Spot, text: &[u8], most: usize) -> Result<u32, ValueFault>
    ensures { result ≡ ok_or (number_of (min most 9) text.now) (record { spot = spot }) }
{
    let value = match value_of(text) {
        Value::Number(digits) => number(digits, most),
        Value::Withdrawal(_) | Value::Injection(_) => None,
    };
    value.ok_or(ValueFault { spot })
}

// An hour's reading: W or I, and then 1 to 8 digits.
pub(crate) fn reading_at(spot: Spot, text: &[u8]) -> Result<Reading, ValueFault>
    ensures { result ≡ ok_or (reading_of text.now) (record { spot = spot }) }
{
    let reading = match value_of(text) {
        Value::Withdrawal(digits) => number(digits, 8).map(Reading::Withdrawal),
        Value::Injection(digits) => number(digits, 8).map(Reading::Injection),
        Value::Number(_) => None,
    };
    reading.ok_or(ValueFault { spot })
}
