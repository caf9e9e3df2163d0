// One line of a file: a point, a day and the readings of 24 hours, with bars between.
ghost use Rattle.std.specs.Prelude.{◌≡◌, length};
ghost use Rattle.std.specs.Result.{result_map_both};
ghost use Rattle.sheet_file.specs.Values.{values};
ghost use Rattle.sheet_file.specs.Sheets.{readings_from, sheet_of, value_fault_at, line_fault_at};

use crate::faults::{LineFault, Spot, ValueFault};
use crate::value::{number_at, reading_at};
use tariff::reading::{Reading, Sheet};
use text::cuts::{count_marks, cut};
use text::walk::Parts;

// The 24 readings of the values of `hours`, which stand from place 3 on.
fn readings_of(line: u64, hours: &[u8]) -> Result<[Reading; 24], ValueFault>
    requires { length (values hours.now) ≡ 24 }
    ensures { result ≡ result_map_both (λ x. x) (value_fault_at line) (readings_from 3 (values hours.now)) }
{
    let mut readings = [Reading::Withdrawal(0); 24];
    for (hour, text) in Parts::new(hours, b'|').enumerate() {
        let place = hour as u8 + 3;
        readings[hour] = reading_at(Spot { line, place }, text)?;
    }
    Ok(readings)
}

// The sheet that the line of number `line` holds.
#[tactic(auto, using(crate::proofs::Hours::sheet_cut, crate::proofs::Hours::place_from))]
pub(crate) fn sheet_of(line: u64, text: &[u8]) -> Result<Sheet, LineFault>
    ensures { result ≡ result_map_both (λ x. x) (line_fault_at line) (sheet_of (values text.now)) }
{
    if count_marks(text, b'|') != 25 {
        return Err(LineFault::NotTwentySixValues { line });
    }
    let (first, others) = cut(text, b'|');
    let (second, hours) = cut(others, b'|');
    let point = number_at(Spot { line, place: 1 }, first, 9)?;
    let day = number_at(Spot { line, place: 2 }, second, 2)?;
    let readings = readings_of(line, hours)?;
    Ok(Sheet {
        point,
        day,
        readings,
    })
}
