// The end of a month.
ghost use Rattle.std.specs.Prelude.{◌≡◌, ◌==◌, length, Some, None, Ok, Err};
ghost use Rattle.agreement.specs.Book.{is_closed};
ghost use Rattle.agreement.specs.Calls.{after, answer, refusal};
ghost use Rattle.agreement.specs.Missing.{missing_read};
ghost use Rattle.pool.specs.Limits.{WithinLimits};

use crate::table::Table;
use agreement::{Call, Refusal, Status};

impl Table {
    // Whether the month is closed.
    pub(crate) fn is_closed(&self) -> bool
        ensures { result ≡ is_closed self.now.status }
    {
        self.status.is_closed()
    }

    // The first missing read, by member and then by day.
    fn missing_read(&self) -> Option<Refusal>
        ensures { result ≡ missing_read self.now.members }
    {
        // By places, since a refusal names the place.
        for place in 0..self.count() {
            if let Some(day) = self.row(place).first_unread() {
                return Some(Refusal::ReadMissing {
                    member: place as u8 + 1,
                    day,
                });
            }
        }
        None
    }

    // The checks before the month ends.
    fn closing(&self) -> Result<(), Refusal>
        ensures { elim result [ Ok _ ↦ refusal Call.Close self.now ≡ None | Err e ↦ refusal Call.Close self.now ≡ Some e ] }
    {
        if self.is_closed() {
            return Err(Refusal::MonthClosed);
        }
        if self.count() == 0 {
            return Err(Refusal::NoMember);
        }
        self.missing_read().map_or(Ok(()), |missing| Err(missing))
    }

    // Ends the month.
    pub(crate) fn close(&mut self) -> Result<(), Refusal>
        ensures book { self.new ≡ after Call.Close self.old }
        ensures answers { result ≡ answer Call.Close self.old }
        ensures limits { WithinLimits self.new }
    {
        self.closing()?;
        self.status = Status::Closed;
        Ok(())
    }
}
