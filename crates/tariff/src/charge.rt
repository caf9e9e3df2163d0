// The charge types of a delivery point.
ghost use Rattle.std.specs.Prelude.{◌≡◌};
ghost use Rattle.tariff.specs.Charges.{charge_number, credit_number};

#[derive(Clone, Copy, PartialEq, Eq)]
pub enum Charge {
    Network = 650,
    Line = 651,
    Transformation = 652,
}

impl Charge {
    // The number under which the charge is billed.
    pub fn number(self) -> u32
        ensures { result ≡ charge_number self }
    {
        self as u32
    }

    // The number under which the charge is credited to a transmitter.
    pub fn credit_number(self) -> u32
        ensures { result ≡ credit_number self }
    {
        match self {
            Charge::Network => 600,
            Charge::Line => 601,
            Charge::Transformation => 602,
        }
    }
}
