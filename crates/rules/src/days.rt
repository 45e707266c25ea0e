// The days of a month; specs/Days.antt has the same figures.
ghost use Rattle.std.specs.Prelude.{◌≡◌};
ghost use Rattle.rules.specs.Days.{is_month_length};

// The days of the shortest month.
pub const LEAST_DAYS: u8 = 28;

// The days of the longest month.
pub const MOST_DAYS: u8 = 31;

// Whether a month can have so many days.
pub fn is_month_length(days: u8) -> bool
    ensures { result ≡ is_month_length days }
{
    LEAST_DAYS <= days && days <= MOST_DAYS
}
