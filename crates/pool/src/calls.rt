// What the calls of a month do to a table.
ghost use Rattle.std.specs.Prelude.{◌≡◌, ◌==◌, length, map, position, Some, Ok, Err, nat_le};
ghost use Rattle.std.specs.Option.{is_some};
ghost use Rattle.rules.specs.Checks.{first};
ghost use Rattle.agreement.specs.Calls.{accepted, after, answer, posting_checks, refusal};
ghost use Rattle.agreement.specs.Limits.{most_members};
ghost use Rattle.agreement.specs.Postings.{enrolled, with_nomination};
ghost use Rattle.pool.specs.Limits.{WithinLimits};
ghost use Rattle.pool.specs.Places.{Enrols, Posts, place_of};

use crate::table::{Enrolled, ROW, Table};
use agreement::{Call, Day, MOST_MEMBERS, MOST_RETENTION, MOST_THERMS, Posting, Refusal};

// The place of the first enrolment with this account.
fn first_with(members: &[Enrolled], account: u32) -> Option<usize>
    ensures { result ≡ position (λ m. m.account == account) members.now }
{
    members.iter().position(|member| member.account == account)
}

// Nominates so many therms for each of some days.
fn nominate_each(days: &mut [Day], therms: u32)
    ensures { days.new ≡ map (with_nomination therms) days.old }
{
    for day in days {
        day.nominated = therms;
    }
}

impl Table {
    // The place of the first member with this account.
    fn place(&self, account: u32) -> Option<usize>
        ensures at { result ≡ place_of account self.now }
        ensures known { is_some result ≡ enrolled account self.now.members }
    {
        first_with(&self.members, account)
    }

    // Whether a member has this account.
    pub(crate) fn has(&self, account: u32) -> bool
        ensures { result ≡ enrolled account self.now.members }
    {
        self.place(account).is_some()
    }

    // Whether there is no room for another member.
    fn is_full(&self) -> bool
        ensures { result ≡ nat_le most_members (length self.now.members) }
    {
        self.count() >= MOST_MEMBERS
    }

    // The checks of an enrolment; each row begins with the closed month, as the agreement has it. The enrolment takes an
    // account and a retention as the call does: nothing else takes the two.
    fn enrolling(&self, account: u32, retention: u8) -> Result<(), Refusal>
        ensures { elim result [ Ok _ ↦ Enrols self.now account retention | Err e ↦ refusal (Call.Enrol account retention) self.now ≡ Some e ] }
    {
        if self.is_closed() {
            return Err(Refusal::MonthClosed);
        }
        if self.is_full() {
            return Err(Refusal::PoolFull);
        }
        if account == 0 {
            return Err(Refusal::AccountZero);
        }
        if self.has(account) {
            return Err(Refusal::AlreadyEnrolled);
        }
        if retention > MOST_RETENTION {
            return Err(Refusal::RetentionTooHigh);
        }
        Ok(())
    }

    // The checks of a posting of gas, and the cell of the member and the day that it is for.
    fn posting(&self, posting: Posting) -> Result<usize, Refusal>
        ensures { elim result [ Ok cell ↦ Posts self.now posting cell | Err e ↦ first (posting_checks posting self.now) ≡ Some e ] }
    {
        if self.is_closed() {
            return Err(Refusal::MonthClosed);
        }
        // By `let .. else`: after `ok_or(..)?` the proof of which refusal is answered does not close.
        let Some(place) = self.place(posting.account) else {
            return Err(Refusal::NotEnrolled);
        };
        if !self.days.has(posting.day) {
            return Err(Refusal::NoSuchDay);
        }
        if posting.therms > MOST_THERMS {
            return Err(Refusal::TooManyTherms);
        }
        Ok(place * ROW + (posting.day as usize - 1))
    }

    // Adds a member, whose days are zero and unread.
    pub(crate) fn enrol(&mut self, account: u32, retention: u8) -> Result<(), Refusal>
        ensures book { self.new ≡ after (Call.Enrol account retention) self.old }
        ensures answers { result ≡ answer (Call.Enrol account retention) self.old }
        ensures limits { WithinLimits self.new }
    {
        self.enrolling(account, retention)?;
        self.members.push(Enrolled { account, retention });
        Ok(())
    }

    // Sets a member's nomination for a day and every later day. The three calls of a posting share its checks, and differ
    // in the write alone.
    pub(crate) fn nominate(&mut self, posting: Posting) -> Result<(), Refusal>
        ensures book { self.new ≡ after (Call.Nominate posting) self.old }
        ensures answers { result ≡ answer (Call.Nominate posting) self.old }
        ensures limits { WithinLimits self.new }
    {
        let cell = self.posting(posting)?;
        let days = (self.days.count() - (posting.day - 1)) as usize;
        nominate_each(&mut self.cells[cell..cell + days], posting.therms);
        Ok(())
    }

    // Sets the gas that a member used on a day.
    pub(crate) fn read(&mut self, posting: Posting) -> Result<(), Refusal>
        ensures book { self.new ≡ after (Call.Read posting) self.old }
        ensures answers { result ≡ answer (Call.Read posting) self.old }
        ensures limits { WithinLimits self.new }
    {
        let cell = self.posting(posting)?;
        self.cells[cell].reading = Some(posting.therms);
        Ok(())
    }

    // Sets the gas received for a member on a day.
    pub(crate) fn receive(&mut self, posting: Posting) -> Result<(), Refusal>
        ensures book { self.new ≡ after (Call.Receive posting) self.old }
        ensures answers { result ≡ answer (Call.Receive posting) self.old }
        ensures limits { WithinLimits self.new }
    {
        let cell = self.posting(posting)?;
        self.cells[cell].received = posting.therms;
        Ok(())
    }

    // Marks a day as one with notice.
    pub(crate) fn notify(&mut self, day: u8) -> Result<(), Refusal>
        ensures book { self.new ≡ after (Call.Notify day) self.old }
        ensures answers { result ≡ answer (Call.Notify day) self.old }
        ensures limits { WithinLimits self.new }
    {
        if self.is_closed() {
            return Err(Refusal::MonthClosed);
        }
        if !self.days.has(day) {
            return Err(Refusal::NoSuchDay);
        }
        self.notices[day as usize - 1] = true;
        Ok(())
    }
}
