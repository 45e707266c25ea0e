// Accounts, and what the calls add to a balance. Amounts and balances are in cents; a balance below 0 is credit.
ghost use Rattle.std.specs.Prelude.{◌≡◌, ◌≤◌, pos, ◌+ℤ◌, IfOk, nat_lt, unsigned_abs};
ghost use Rattle.billing.specs.declared.refusals.Refusal.TheVariants.{AmountTooLarge};
ghost use Rattle.billing.specs.Limits.{most_amount, most_balance};
ghost use Rattle.rules.specs.Checks.{◌when◌, unless};
ghost use Rattle.billing.specs.Late.{late};
ghost use Rattle.billing.specs.Accounts.{account, added, amount_refusal, entry_refusal};

use crate::entries::Entry;
use crate::keeping::Numbered;
use crate::limits::{FIRST_OWED, MOST_AMOUNT, MOST_BALANCE};
use crate::refusals::Refusal;
use crate::rounding::halves_up;

#[derive(Clone, Copy, PartialEq, Eq, Debug)]
pub struct Account {
    pub(crate) number: u32,
    pub(crate) balance: i64,
}

impl Numbered for Account {
    ghost numbered = { λ a. a.number };

    fn number(&self) -> u32 {
        self.number
    }
}

// Whether cents are beyond a limit, either way.
fn is_beyond(cents: i128, limit: u128) -> bool
    ensures { result ≡ nat_lt limit (unsigned_abs cents) }
{
    cents.unsigned_abs() > limit
}

// The late charge on a balance: 10% of the first $3.00 owed and 3% of the rest, rounded once, halves up.
pub fn late_charge(balance: i64) -> i64
    ensures { result ≡ pos (late balance) }
{
    if balance <= 0 {
        return 0;
    }
    let owed = balance as u128;
    let first = owed.min(FIRST_OWED);
    halves_up(10 * first + 3 * (owed - first), 100) as i64
}

// An amount that is handed over, if it is within the limit.
fn within_limit(amount: i64) -> Result<i64, Refusal>
    ensures { result ≡ unless (AmountTooLarge when nat_lt most_amount (unsigned_abs amount)) amount }
{
    if is_beyond(amount as i128, MOST_AMOUNT) {
        return Err(Refusal::AmountTooLarge);
    }
    Ok(amount)
}

impl Entry {
    // What the entry adds to a balance, if its amount is within the limit.
    fn adds(self, balance: i64) -> Result<i64, Refusal>
        ensures { result ≡ unless (amount_refusal self) (added self balance) }
    {
        match self {
            Entry::Post { amount } => within_limit(amount),
            Entry::Pay { amount } => Ok(-within_limit(amount)?),
            Entry::Late => Ok(late_charge(balance)),
        }
    }
}

impl Account {
    // A new account, with nothing owed and no credit.
    pub fn new(number: u32) -> Account
        ensures { result ≡ account number (pos 0) }
    {
        Account { number, balance: 0 }
    }

    pub fn balance(self) -> i64
        ensures { result ≡ self.balance }
    {
        self.balance
    }

    // What the entry adds to the balance, if the balance stays within the limit.
    pub(crate) fn added_by(self, entry: Entry) -> Result<i64, Refusal>
        ensures value { result ≡ unless (entry_refusal entry self.balance) (added entry self.balance) }
        ensures within { IfOk result (λ a. unsigned_abs (self.balance +ℤ a) ≤ most_balance) }
    {
        let added = entry.adds(self.balance)?;
        if is_beyond(self.balance as i128 + added as i128, MOST_BALANCE) {
            return Err(Refusal::BalanceTooLarge);
        }
        Ok(added)
    }
}
