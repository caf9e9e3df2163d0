// Decimal digits to a number.
ghost use Rattle.std.specs.Prelude.{◌≡◌, min};
ghost use Rattle.text.specs.Format.{number_of};

// A number of so many digits fits 32 bits.
const MOST_DIGITS: usize = 9;

// The number that 1 to `most` digits write, which are all of `text`. More than 9 digits are never taken.
pub fn number(text: &[u8], most: usize) -> Option<u32>
    ensures { result ≡ number_of (min most 9) text.now }
{
    if text.is_empty() || text.len() > most.min(MOST_DIGITS) {
        return None;
    }
    let mut n = 0;
    for b in text {
        n = 10 * n + char::from(*b).to_digit(10)?;
    }
    Some(n)
}
