// What is written to a line, and how it is handed over.
ghost use Rattle.std.specs.Prelude.{◌≡◌, ◌≤◌, [], ◌∷◌, ◌++◌, length, take, decimal};
ghost use Rattle.std.specs.Fmt.{signed_decimal};
ghost use Rattle.text.specs.Texts.{text_of, fitting, overlay};

use super::Text;
use fixed_list::list::FixedList;

impl Text {
    pub fn new() -> Text
        ensures { text_of result ≡ [] }
    {
        Text {
            bytes: FixedList::new(0),
        }
    }

    pub fn push(&mut self, b: u8)
        ensures { text_of self.new ≡ take 256 (text_of self.old ++ b ∷ []) }
    {
        self.bytes.push(b);
    }

    // The decimal digits of `n`, as few as write it. The calls give them from the first on, with no memory to turn them round.
    pub fn push_number(&mut self, n: u64)
        ensures { text_of self.new ≡ take 256 (text_of self.old ++ decimal n) }
    {
        if n >= 10 {
            self.push_number(n / 10);
        }
        self.push(b'0' + (n % 10) as u8);
    }

    // The decimal digits of `v`, as few as write it, after a `-` where it is negative.
    pub fn push_signed(&mut self, v: i64)
        ensures { text_of self.new ≡ take 256 (text_of self.old ++ signed_decimal v) }
    {
        if v < 0 {
            self.push(b'-');
        }
        self.push_number(v.unsigned_abs());
    }

    pub fn push_bytes(&mut self, part: &[u8])
        ensures { text_of self.new ≡ take 256 (text_of self.old ++ part.now) }
    {
        for b in part {
            self.push(*b);
        }
    }

    // What is written so far.
    pub fn as_bytes(&self) -> &[u8]
        ensures { result.now ≡ text_of self.now }
    {
        self.bytes.as_slice()
    }

    pub fn len(&self) -> usize
        ensures { (result ≡ length (text_of self.now)) × (result ≤ 256) }
    {
        self.bytes.len()
    }

    // Copies the line to the front of `out` and answers its length, or None where it does not fit.
    pub fn copy_to(&self, out: &mut [u8]) -> Option<usize>
        ensures value { result ≡ fitting (text_of self.now) (length out.old) }
        ensures memory { out.new ≡ overlay result (text_of self.now) out.old }
    {
        let line = self.as_bytes();
        if out.len() < line.len() {
            return None;
        }
        out[..line.len()].copy_from_slice(line);
        Some(line.len())
    }
}
