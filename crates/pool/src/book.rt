// The pool book, over any three schedules.
ghost use Rattle.std.specs.Prelude.{◌≡◌};
ghost use Rattle.agreement.specs.Book.{opened};
ghost use Rattle.agreement.specs.Calls.{after, answer};
ghost use Rattle.pool.specs.Limits.{WithinLimits};

use crate::schedules::Schedules;
use crate::table::Table;
use agreement::{Call, Days, Posting, Refusal};
use schedule::Schedule;

// The bounds of its parameters stand where they are used.
#[derive(Drop)]
pub struct PoolBook<M, D, O> {
    pub(crate) schedules: Schedules<M, D, O>,
    pub(crate) table: Table,
    // No figure of the book is above its limit.
    ghost limits: { WithinLimits table },
}

// The calls are methods of the book, each over the table's: the table knows
// no schedule, so that their bodies are proved once for all. That the schedules stay
// is a promise of each.
impl<M: Schedule, D: Schedule, O: Schedule> PoolBook<M, D, O> {
    // Sets up an open book without members or notices.
    pub fn new(days: Days, month: M, day: D, overrun: O) -> Self
        ensures book { result.table ≡ opened days.count }
        ensures schedules { result.schedules ≡ record { month = month; day = day; overrun = overrun } }
    {
        PoolBook {
            schedules: Schedules {
                month,
                day,
                overrun,
            },
            table: Table::new(days),
        }
    }

    // The number of days of the month.
    pub fn days(&self) -> u8
        ensures { result ≡ self.now.table.days }
    {
        self.table.days()
    }

    // Adds a member with an account number and a retention in tenths of a percent.
    pub fn enrol(&mut self, account: u32, retention: u8) -> Result<(), Refusal>
        ensures book { self.new.table ≡ after (Call.Enrol account retention) self.old.table }
        ensures answers { result ≡ answer (Call.Enrol account retention) self.old.table }
        ensures schedules { self.new.schedules ≡ self.old.schedules }
    {
        self.table.enrol(account, retention)
    }

    // Sets a member's nomination for a day and every later day.
    pub fn nominate(&mut self, posting: Posting) -> Result<(), Refusal>
        ensures book { self.new.table ≡ after (Call.Nominate posting) self.old.table }
        ensures answers { result ≡ answer (Call.Nominate posting) self.old.table }
        ensures schedules { self.new.schedules ≡ self.old.schedules }
    {
        self.table.nominate(posting)
    }

    // Sets the gas that a member used on a day, in place of an earlier read.
    pub fn read(&mut self, posting: Posting) -> Result<(), Refusal>
        ensures book { self.new.table ≡ after (Call.Read posting) self.old.table }
        ensures answers { result ≡ answer (Call.Read posting) self.old.table }
        ensures schedules { self.new.schedules ≡ self.old.schedules }
    {
        self.table.read(posting)
    }

    // Sets the gas received for a member at the city gate on a day, in place of an earlier figure.
    pub fn receive(&mut self, posting: Posting) -> Result<(), Refusal>
        ensures book { self.new.table ≡ after (Call.Receive posting) self.old.table }
        ensures answers { result ≡ answer (Call.Receive posting) self.old.table }
        ensures schedules { self.new.schedules ≡ self.old.schedules }
    {
        self.table.receive(posting)
    }

    // Marks a day on which the utility told the pool to stay within its nomination.
    pub fn notify(&mut self, day: u8) -> Result<(), Refusal>
        ensures book { self.new.table ≡ after (Call.Notify day) self.old.table }
        ensures answers { result ≡ answer (Call.Notify day) self.old.table }
        ensures schedules { self.new.schedules ≡ self.old.schedules }
    {
        self.table.notify(day)
    }

    // Ends the month, once every member has a read for every day.
    pub fn close(&mut self) -> Result<(), Refusal>
        ensures book { self.new.table ≡ after Call.Close self.old.table }
        ensures answers { result ≡ answer Call.Close self.old.table }
        ensures schedules { self.new.schedules ≡ self.old.schedules }
    {
        self.table.close()
    }
}
