// Whole numbers of any length.
ghost use Rattle.std.specs.Prelude.{◌≡◌};
ghost use Rattle.job.specs.Numbers.{whole_of};

// The number that decimal digits write, or the largest of 32 bits if it is larger: out of range, then, and not malformed.
pub fn whole(text: &[u8]) -> Option<u32>
    ensures { result ≡ whole_of text.now }
{
    if text.is_empty() {
        return None;
    }
    let mut n: u32 = 0;
    for b in text {
        if !b.is_ascii_digit() {
            return None;
        }
        n = n.saturating_mul(10).saturating_add(u32::from(*b - b'0'));
    }
    Some(n)
}
