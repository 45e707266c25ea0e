// Why a call is refused, and the number that each refusal goes by.
ghost use Rattle.std.specs.Prelude.{◌≡◌};
ghost use Rattle.billing.specs.Refusals.{number_of};

#[derive(Clone, Copy, PartialEq, Eq, Debug)]
pub enum Refusal {
    // No month has so many days.
    MonthLength = 1,
    // The memory lent has no place left.
    KeepingFull = 51,
    // A record has this number already.
    NumberInUse = 52,
    // No record has this number.
    NoSuchNumber = 53,
    // An amount beyond ±200,000,000,000 cents.
    AmountTooLarge = 54,
    // A monthly charge, a rate or the end of a block beyond the rules of a rate sheet.
    BadSheet = 55,
    // The balance would pass ±10^15 cents.
    BalanceTooLarge = 56,
    // More days served than the month has.
    ServedTooLong = 57,
    // More gas than a bill can have.
    TooManyTherms = 58,
}

impl Refusal {
    pub fn number(self) -> u8
        ensures { result ≡ number_of self }
    {
        self as u8
    }
}
