// The limits of sheets, bills and accounts; specs/Limits.antt has the same figures.

// The highest monthly charge of a rate sheet, in cents.
pub const MOST_MONTHLY_CENTS: u32 = 1_000_000;

// The highest rate, in millionths of a dollar a therm.
pub const MOST_RATE: u32 = 9_999_999;

// The most gas of a bill, in therms.
pub const MOST_THERMS: u32 = 1_550_000;

// The largest amount of a posting or a payment, either way, in cents.
pub const MOST_AMOUNT: u128 = 200_000_000_000;

// The largest balance, either way, in cents.
pub const MOST_BALANCE: u128 = 1_000_000_000_000_000;

// Up to here a balance owed bears the higher late charge: $3.00.
pub const FIRST_OWED: u128 = 300;
