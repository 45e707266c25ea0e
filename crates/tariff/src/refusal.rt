ghost use Rattle.std.specs.Prelude.{◌≡◌, Some};
ghost use Rattle.tariff.specs.Refusals.{number, reason};

use std::fmt;

// Why a ladder or a list of lines is refused, and the number of each refusal.
#[derive(Clone, Copy, PartialEq, Eq, Debug)]
pub enum Refusal {
    // a price above 30,000
    PriceTooHigh = 2,
    // the lowest price above the average
    LowestAboveAverage = 3,
    // not 1 to 64 lines, or a line beyond the limits
    BadLineList = 4,
    // neither six bands nor four
    BadBandCount = 46,
}

impl Refusal {
    // The number by which a supplier knows the refusal.
    pub fn number(self) -> u8
        ensures { result ≡ number self }
    {
        self as u8
    }
}

impl fmt::Display for Refusal {
    ghost output = { λ refusal. Some (reason refusal) };

    fn fmt<W: fmt::Write>(&self, f: &mut fmt::Formatter<W>) -> fmt::Result {
        f.write_str(match self {
            Refusal::PriceTooHigh => "a price is above 30000",
            Refusal::LowestAboveAverage => "the lowest price is above the average",
            Refusal::BadLineList => "the list of lines is not a schedule",
            Refusal::BadBandCount => "there are ladders of 6 and of 4 bands only",
        })
    }
}
