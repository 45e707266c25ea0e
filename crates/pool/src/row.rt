// The days of one member, as they lie in a row of cells, and the gas on them, in thousandths of a therm.
ghost use Rattle.std.specs.Prelude.{◌≡◌, ◌<◌, ◌≤◌, ◌-◌, length, position};
ghost use Rattle.agreement.specs.Book.{blank, is_unread, therms_of};
ghost use Rattle.agreement.specs.Gases.{delivered_gas, for_day, for_month, gas_of, net_received_gas, nominated_gas, used_gas};
ghost use Rattle.agreement.specs.Limits.{most_day_gas, most_month_gas, most_pool_gas};
ghost use Rattle.agreement.specs.Missing.{first_unread};
ghost use Rattle.agreement.specs.Sizes.{Sized, SmallDay};

use agreement::{Day, Gas};
use std::marker::Model;

#[derive(Drop)]
pub(crate) struct Row<'a> {
    pub(crate) account: u32,
    pub(crate) retention: u8,
    pub(crate) days: &'a [Day],
}

// Clauses see the member.
impl<'a> Model for Row<'a> {
    ghost use Rattle.agreement.specs.Book.{Member};

    ghost Value = { Member };

    ghost use Rattle.pool.specs.Rows.{member_of, SoundRow};

    ghost view = { member_of };

    ghost invariant = { SoundRow };
}

// Where the first unread of some days stands, from 0.
fn unread_at(days: &[Day]) -> Option<usize>
    ensures { result ≡ position (λ day. is_unread day.reading) days.now }
{
    days.iter().position(|day| day.is_unread())
}

// What was taken less what there was for it, on a base.
fn gas_of(taken: u64, there: u64, base: u64) -> Gas
    requires { (taken ≤ most_pool_gas) × (there ≤ most_pool_gas) }
    ensures { result ≡ gas_of taken there base }
{
    Gas {
        difference: taken as i64 - there as i64,
        base,
    }
}

// The gas of a day: used less nominated, on what was nominated.
pub(crate) fn gas_on(day: Day) -> Gas
    requires { SmallDay day }
    ensures same { result ≡ gas_of (used_gas day) (nominated_gas day) (nominated_gas day) }
    ensures small { Sized most_day_gas result }
{
    let nominated = 1000 * day.nominated as u64;
    gas_of(1000 * day.used() as u64, nominated, nominated)
}

impl Row<'_> {
    // The delivered gas.
    fn delivered(&self) -> u64
        ensures same { result ≡ delivered_gas self.now }
        ensures most { result ≤ most_month_gas }
    {
        let read: u64 = self.days.iter().map(|day| day.used() as u64).sum();
        1000 * read
    }

    // The net received gas.
    fn net_received(&self) -> u64
        ensures same { result ≡ net_received_gas self.now }
        ensures most { result ≤ most_month_gas }
    {
        let received: u64 = self.days.iter().map(|day| day.received as u64).sum();
        (1000 - self.retention as u64) * received
    }

    // The gas for the month.
    pub(crate) fn month_gas(&self) -> Gas
        ensures { result ≡ for_month self.now }
    {
        let delivered = self.delivered();
        gas_of(delivered, self.net_received(), delivered)
    }

    // The gas for a day.
    pub(crate) fn day_gas(&self, day: u8) -> Gas
        requires from { 1 ≤ day }
        requires upto { day ≤ length self.now.days }
        ensures { result ≡ for_day day self.now }
    {
        gas_on(self.days[day as usize - 1])
    }

    // The first unread day.
    pub(crate) fn first_unread(&self) -> Option<u8>
        ensures { result ≡ first_unread self.now }
    {
        let unread = unread_at(self.days)?;
        Some(unread as u8 + 1)
    }
}
