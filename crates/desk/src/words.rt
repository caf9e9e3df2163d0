// Refusals as a program tells them.
use std::io;
use std::io::Write;
use tariff::refusal::Refusal;

// The refusal's number, its places and its cause.
pub(crate) fn tell<W: Write>(faults: &mut W, refusal: Refusal) -> io::Result<()> {
    let number = refusal.number();
    match refusal {
        Refusal::QuantityTooLarge { hour } => {
            writeln!(faults, "refused {number}: hour {hour}: {refusal}")
        }
        Refusal::SheetMissing { point, day } => {
            writeln!(
                faults,
                "refused {number}: point {point}, day {day}: {refusal}"
            )
        }
        Refusal::NothingOnRecord { point } => {
            writeln!(faults, "refused {number}: point {point}: {refusal}")
        }
        Refusal::MalformedValue { place, .. } => {
            writeln!(faults, "refused {number}: value {place}: {refusal}")
        }
        _ => writeln!(faults, "refused {number}: {refusal}"),
    }
}
