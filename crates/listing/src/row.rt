// One ledger line as a line of text.
ghost use Rattle.std.specs.Prelude.{◌≡◌, ◌∷◌, ◌++◌, length, take, decimal};
ghost use Rattle.text.specs.Texts.{text_of, fitting, overlay};
ghost use Rattle.listing.specs.Rows.{line_text};

use ledger::line::Line;
use text::line::Text;

// A bar, and then the number.
fn push_value(text: &mut Text, n: u64)
    ensures { text_of text.new ≡ take 256 (text_of text.old ++ 124 ∷ decimal n) }
{
    text.push(b'|');
    text.push_number(n);
}

// The statement's letters, the charge's number as a debit, and the other values in fewest digits. Any line has room.
pub(crate) fn line_text(line: &Line) -> Text
    ensures { text_of result ≡ line_text line.now }
{
    let mut text = Text::new();
    text.push_bytes(line.statement.letters());
    push_value(&mut text, u64::from(line.point));
    push_value(&mut text, u64::from(line.charge.number()));
    push_value(&mut text, u64::from(line.customer.number));
    push_value(&mut text, u64::from(line.transmitter.number));
    text.push(b'|');
    text.push_signed(line.cents);
    push_value(&mut text, line.quantity);
    push_value(&mut text, u64::from(line.day));
    push_value(&mut text, u64::from(line.hour));
    text.push(b'\n');
    text
}

// Writes the line's text to the front of `out` and answers its length, or None where it does not fit.
pub fn write_line(line: &Line, out: &mut [u8]) -> Option<usize>
    ensures value { result ≡ fitting (line_text line.now) (length out.old) }
    ensures memory { out.new ≡ overlay result (line_text line.now) out.old }
{
    line_text(line).copy_to(out)
}
