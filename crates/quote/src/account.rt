// The accounts of a monthly cash-out and of a day.
ghost use Rattle.std.specs.Prelude.{◌≡◌, ◌^◌, ◌≤◌, true, ◌+ℤ◌, Some, None, Ok, Err, MatchResult, unsigned_abs};
ghost use Rattle.schedule.specs.Answers.{in_range};
ghost use Rattle.quote.specs.Quotes.{gas_refused, gas_between, cash_out_refused, CashedOut, day_refused, Overran, overrun_grains, DayCharged};
ghost use Rattle.quote.specs.declared.account.Refused.TheVariants.{NoLadder};

use crate::request::{DayUse, Month};
use schedule::{Charge, Gas};
use tariff::{Formula, Ladder, Overrun, Refusal, Tolerance};

// The account of a monthly cash-out.
#[derive(Clone, Copy, PartialEq, Eq, Debug)]
pub struct CashOut {
    pub gas: Gas,
    pub charge: Charge,
}

// The account of a day: the balancing charge, and on a day with a notice the overrun charge.
#[derive(Clone, Copy, PartialEq, Eq, Debug)]
pub struct DayAccount {
    pub gas: Gas,
    pub balancing: Charge,
    pub overrun: Option<Charge>,
    pub total: i128,
}

// Why there is no account.
#[derive(Clone, Copy, PartialEq, Eq, Debug)]
pub enum Refused {
    // a base or a difference beyond the range of the schedules
    OutOfRange,
    // there is no such ladder
    NoLadder(Refusal),
}

// By hand, since a derive's `From` states nothing of the error that it makes.
impl From<Refusal> for Refused {
    ghost from_gives = { λ refusal refused. refused ≡ NoLadder refusal };

    fn from(refusal: Refusal) -> Refused {
        Refused::NoLadder(refusal)
    }
}

// So many therms above so many others, on a base; beyond the range of the schedules it is refused.
fn gas_of(more: u32, less: i64, base: u32) -> Result<Gas, Refused>
    requires { unsigned_abs less ≤ 2 ^ 32 }
    ensures { MatchResult result (λ gas. (gas_refused more less base ≡ None) × (gas ≡ gas_between more less base)) (λ refused. gas_refused more less base ≡ Some refused) }
{
    let gas = Gas {
        difference: 1000 * (i64::from(more) - less),
        base: 1000 * u64::from(base),
    };
    if !gas.is_in_range() {
        return Err(Refused::OutOfRange);
    }
    Ok(gas)
}

// The cash-out of gas delivered against net gas received, under a ladder of these bands and prices.
pub fn quote_cash_out(month: Month) -> Result<CashOut, Refused>
    ensures { elim result [ Ok q ↦ (cash_out_refused month ≡ None) × CashedOut month q | Err e ↦ cash_out_refused month ≡ Some e ] }
{
    let gas = gas_of(month.delivered, i64::from(month.received), month.delivered)?;
    let ladder = Ladder::new(month.bands, month.average, month.lowest)?;
    Ok(CashOut {
        gas,
        charge: ladder.charge(gas),
    })
}

// The overrun charge of a day with a notice.
fn overrun_on(notice: bool, gas: Gas) -> Option<Charge>
    requires { in_range gas.difference gas.base ≡ true }
    ensures { Overran notice gas.difference gas.base result }
{
    notice.then(|| Overrun.charge(gas))
}

// A balancing charge, and an overrun charge where there is one.
fn whole_charge(balancing: Charge, overrun: Option<Charge>) -> i128
    requires { (unsigned_abs balancing.grains ≤ 2 ^ 95) × (unsigned_abs (overrun_grains overrun) ≤ 2 ^ 95) }
    ensures { result ≡ balancing.grains +ℤ overrun_grains overrun }
{
    balancing.grains + overrun.map_or(0, |charge| charge.grains)
}

// The charges of a day's use against its nomination.
pub fn quote_day(day: DayUse) -> Result<DayAccount, Refused>
    ensures { elim result [ Ok q ↦ (day_refused day ≡ None) × DayCharged day q | Err e ↦ day_refused day ≡ Some e ] }
{
    let gas = gas_of(day.used, i64::from(day.nominated), day.nominated)?;
    let balancing = Tolerance.charge(gas);
    let overrun = overrun_on(day.notice, gas);
    Ok(DayAccount {
        gas,
        balancing,
        overrun,
        total: whole_charge(balancing, overrun),
    })
}
