// What is wrong with a file, as its values, its lines and the whole file tell it.
ghost use Rattle.std.specs.Prelude.{◌≡◌};
ghost use Rattle.sheet_file.specs.Faults.{line_fault, file_fault, refusal_of_fault};

use tariff::refusal::Refusal;

// A value's line, from 1, and its place in that line, 1 to 26.
#[derive(Clone, Copy)]
pub struct Spot {
    pub line: u64,
    pub place: u8,
}

// A value is not of the form that its place asks for.
#[derive(Clone, Copy)]
pub struct ValueFault {
    pub spot: Spot,
}

#[derive(Clone, Copy)]
pub enum LineFault {
    NotTwentySixValues { line: u64 },
    Malformed(ValueFault),
}

// Why a line of a file was refused.
#[derive(Clone, Copy)]
pub enum FileFault {
    NotTwentySixValues { line: u64 },
    Malformed { place: u8, line: u64 },
}

impl From<ValueFault> for LineFault {
    ghost from_gives = { λ v l. l ≡ line_fault v };

    fn from(fault: ValueFault) -> LineFault {
        LineFault::Malformed(fault)
    }
}

impl From<LineFault> for FileFault {
    ghost from_gives = { λ l f. f ≡ file_fault l };

    fn from(fault: LineFault) -> FileFault {
        match fault {
            LineFault::NotTwentySixValues { line } => FileFault::NotTwentySixValues { line },
            LineFault::Malformed(value) => FileFault::Malformed {
                place: value.spot.place,
                line: value.spot.line,
            },
        }
    }
}

impl From<FileFault> for Refusal {
    ghost from_gives = { λ f r. r ≡ refusal_of_fault f };

    fn from(fault: FileFault) -> Refusal {
        match fault {
            FileFault::NotTwentySixValues { line } => Refusal::NotTwentySixValues { line },
            FileFault::Malformed { place, line } => Refusal::MalformedValue { place, line },
        }
    }
}
