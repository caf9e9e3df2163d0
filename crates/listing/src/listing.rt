// The listing of a ledger: a header, and then its lines in order.
ghost use Rattle.std.specs.Prelude.{◌≡◌, ◌+◌, ◌≤◌, [], ◌∷◌, ◌++◌, length, take, drop, IfOk};
ghost use Rattle.std.specs.List.{flat_map};
ghost use Rattle.std.specs.Result.{result_ok};
ghost use Rattle.tariff.specs.Shelves.{items};
ghost use Rattle.text.specs.Texts.{text_of, overlay};
ghost use Rattle.ledger.specs.Ledgers.{shelf_of};
ghost use Rattle.listing.specs.Rows.{line_text};
ghost use Rattle.listing.specs.Listings.{header_row, listing_of, listing_answer, Listed};

use crate::row::line_text;
use ledger::ledger::Ledger;
use ledger::line::Line;
use tariff::refusal::Refusal;
use text::line::Text;

fn header_text() -> Text
    ensures { text_of result ≡ header_row ++ 10 ∷ [] }
{
    let mut text = Text::new();
    text.push_bytes(b"type|point|charge|customer|transmitter|cents|quantity|day|hour\n");
    text
}

// How many bytes the lines' texts have. Each has at most 256, so that the sum of a ledger's fits.
fn texts_length(lines: &[Line]) -> usize
    requires { length lines.now ≤ 100000 }
    ensures { (result ≡ length (flat_map line_text lines.now)) × (result ≤ 25600000) }
{
    let mut sum = 0;
    // With `map` and `sum` it stays open that a line adds at most 256, which the caller's own sum needs.
    for line in lines {
        sum += line_text(line).len();
    }
    sum
}

// Copies a line to a place of `out`, where there is room for it, and answers the place after it.
fn put(text: &Text, out: &mut [u8], at: usize) -> usize
    requires { at + length (text_of text.now) ≤ length out.old }
    ensures place { result ≡ at + length (text_of text.now) }
    ensures front { take result out.new ≡ take at out.old ++ text_of text.now }
    ensures back { drop result out.new ≡ drop result out.old }
{
    let end = at + text.len();
    out[at..end].copy_from_slice(text.as_bytes());
    end
}

// Writes the lines' texts one after another from a place of `out` on, where there is room for them, and answers the place after them.
fn put_lines(lines: &[Line], out: &mut [u8], start: usize) -> usize
    requires { start + length (flat_map line_text lines.now) ≤ length out.old }
    ensures place { result ≡ start + length (flat_map line_text lines.now) }
    ensures front { take result out.new ≡ take start out.old ++ flat_map line_text lines.now }
    ensures back { drop result out.new ≡ drop result out.old }
{
    let mut at = start;
    for line in lines {
        at = put(&line_text(line), out, at);
    }
    at
}

// Writes the ledger's listing to the front of `out` and answers its length. Refuses an unsound ledger, then a text memory
// that is too short. Split into lines again, what was written is the header and a line for each line of the ledger.
pub fn write_listing(ledger: &Ledger, out: &mut [u8]) -> Result<usize, Refusal>
    ensures value { result ≡ listing_answer (shelf_of ledger.now) (length out.old) }
    ensures memory { out.new ≡ overlay (result_ok result) (listing_of (items (shelf_of ledger.now))) out.old }
    ensures listed { IfOk result (λ n. Listed (items (shelf_of ledger.now)) (take n out.new)) }
{
    ledger.check()?;
    let lines = ledger.lines();
    let header = header_text();
    if header.len() + texts_length(lines) > out.len() {
        return Err(Refusal::TextTooShort);
    }
    let start = put(&header, out, 0);
    Ok(put_lines(lines, out, start))
}
