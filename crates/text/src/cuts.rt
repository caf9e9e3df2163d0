// The parts of a text, which a mark stands between.
ghost use Rattle.std.specs.Prelude.{◌≡◌, ◌+◌, length, ◌==◌, position, unwrap_or};
ghost use Rattle.text.specs.Format.{before, after, parts};
ghost use Rattle.text.specs.Laws.{Parts-stand};

// The place of the first `mark`, if there is one.
pub fn find(bytes: &[u8], mark: u8) -> Option<usize>
    ensures place { result ≡ position (λ b. b == mark) bytes.now }
    ensures front { unwrap_or result (length bytes.now) ≡ length (before mark bytes.now) }
{
    bytes.iter().position(|b| *b == mark)
}

// What stands before the first `mark`, and what follows it.
pub fn cut<'a>(bytes: &'a [u8], mark: u8) -> (&'a [u8], &'a [u8])
    ensures front { result.0.now ≡ before mark bytes.now }
    ensures back { result.1.now ≡ after mark bytes.now }
{
    match find(bytes, mark) {
        Some(at) => (&bytes[..at], &bytes[at + 1..]),
        None => (bytes, &[]),
    }
}

// How many marks a text has: one fewer than it has parts.
#[tactic(auto, using(crate::proofs::Parts::parts_counted))]
pub fn count_marks(bytes: &[u8], mark: u8) -> usize
    ensures count { result + 1 ≡ length (parts mark bytes.now) }
    ensures stands { Parts-stand mark bytes.now }
{
    bytes.iter().map(|b| usize::from(*b == mark)).sum()
}
