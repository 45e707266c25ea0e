// Why a call is refused, and the number that each refusal goes by.
ghost use Rattle.std.specs.Prelude.{◌≡◌};
ghost use Rattle.agreement.specs.Refusals.{number_of};

#[derive(Clone, Copy, PartialEq, Eq, Debug)]
pub enum Refusal {
    // No month has so many days.
    MonthLength,
    // The month is closed.
    MonthClosed,
    // The pool has as many members as it takes.
    PoolFull,
    // No member has account number 0.
    AccountZero,
    // A member has this account number already.
    AlreadyEnrolled,
    // The retention is above the highest.
    RetentionTooHigh,
    // No member has this account number.
    NotEnrolled,
    // The month has no such day.
    NoSuchDay,
    // More gas than one member and day can have.
    TooManyTherms,
    // The pool has no member.
    NoMember,
    // A day has no read: the member's place in enrolment order, from 1, and the day.
    ReadMissing { member: u8, day: u8 },
    // The month is not closed.
    NotClosed,
}

impl Refusal {
    // By cases, since a refusal with fields is no number.
    pub fn number(self) -> u8
        ensures { result ≡ number_of self }
    {
        match self {
            Refusal::MonthLength => 1,
            Refusal::MonthClosed => 11,
            Refusal::PoolFull => 12,
            Refusal::AccountZero => 13,
            Refusal::AlreadyEnrolled => 14,
            Refusal::RetentionTooHigh => 15,
            Refusal::NotEnrolled => 16,
            Refusal::NoSuchDay => 17,
            Refusal::TooManyTherms => 18,
            Refusal::NoMember => 22,
            Refusal::ReadMissing { .. } => 23,
            Refusal::NotClosed => 31,
        }
    }
}
