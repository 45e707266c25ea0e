// The number of days of a month, which is one that a month can have.
ghost use Rattle.std.specs.Prelude.{◌≡◌, ◌≤◌, Ok, Err};
ghost use Rattle.rules.specs.Days.{least_days, most_days};
ghost use Rattle.agreement.specs.Months.{checked, has_day};

use crate::refusals::Refusal;
use rules::is_month_length;

#[derive(Clone, Copy, PartialEq, Eq, Debug)]
pub struct Days {
    count: u8,
    ghost least: { least_days ≤ count },
    ghost most: { count ≤ most_days },
}

impl TryFrom<u8> for Days {
    type Error = Refusal;

    ghost try_from_gives = { λ count answer. elim answer [ Ok days ↦ checked count ≡ Ok days.count | Err refusal ↦ checked count ≡ Err refusal ] };

    // Tests a number of days before a month is set up with it.
    fn try_from(count: u8) -> Result<Days, Refusal> {
        if !is_month_length(count) {
            return Err(Refusal::MonthLength);
        }
        Ok(Days { count })
    }
}

impl Days {
    pub fn count(self) -> u8
        ensures { result ≡ self.count }
    {
        self.count
    }

    // Whether the month has this day; days count from 1.
    pub fn has(self, day: u8) -> bool
        ensures { result ≡ has_day day self.count }
    {
        day >= 1 && day <= self.count
    }
}
