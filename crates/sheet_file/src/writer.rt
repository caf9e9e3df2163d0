// One sheet as a line of text.
ghost use Rattle.std.specs.Prelude.{◌≡◌, ◌∷◌, ◌++◌, length, take};
ghost use Rattle.text.specs.Texts.{text_of};
ghost use Rattle.sheet_file.specs.Writing.{reading_text, sheet_line, written, memory_after, ReadsBack};

use tariff::points::MAX_POINTS;
use tariff::reading::{Reading, Sheet, check_sheet};
use tariff::refusal::Refusal;
use text::line::Text;

const MAX_DAYS: u32 = 31;

// A bar, and then the hour's letter and quantity.
fn push_reading(text: &mut Text, reading: Reading)
    ensures { text_of text.new ≡ take 256 (text_of text.old ++ (124 ∷ reading_text reading)) }
{
    let (letter, quantity) = match reading {
        Reading::Withdrawal(q) => (b'W', q),
        Reading::Injection(q) => (b'I', q),
    };
    text.push(b'|');
    text.push(letter);
    text.push_number(u64::from(quantity));
}

fn line_of(sheet: &Sheet) -> Text
    ensures text { text_of result ≡ take 256 (sheet_line sheet.now) }
    ensures hours { length sheet.now.readings ≡ 24 }
{
    let mut text = Text::new();
    text.push_number(u64::from(sheet.point));
    text.push(b'|');
    text.push_number(u64::from(sheet.day));
    for reading in sheet.readings {
        push_reading(&mut text, reading);
    }
    text.push(b'\n');
    text
}

// Writes the sheet's line to the front of `out`, and answers its length.
// Its point is one of 1 to 400, its day one of 1 to 31, and each quantity within the limit; then the line has at most 247 bytes.
pub fn write_sheet(sheet: &Sheet, out: &mut [u8]) -> Result<usize, Refusal>
    ensures value { result ≡ written sheet.now (length out.old) }
    ensures memory { out.new ≡ memory_after result sheet.now out.old }
    ensures reads_back { ReadsBack result sheet.now out.new }
{
    check_sheet(MAX_POINTS, MAX_DAYS, sheet)?;
    line_of(sheet).copy_to(out).ok_or(Refusal::TextTooShort)
}
