// The calls on accounts that are kept. Each answers the cents that it added to the account's balance.
ghost use Rattle.std.specs.Prelude.{◌≡◌, ℕ, min, ◌++◌, length, take, drop, ◌+ℤ◌};
ghost use Rattle.billing.specs.Keepings.{kept, Leaves};
ghost use Rattle.billing.specs.Accounts.{answer, after, balance_of, WithinLimit};
ghost use Rattle.billing.specs.Runs.{answers as answers_to, after_all, sum_added};

use crate::account::Account;
use crate::entries::{Call, Entry};
use crate::keeping::Keeping;
use crate::refusals::Refusal;

impl Keeping<'_, Account> {
    // Makes the entry of a call in the account that it names.
    pub fn enter(&mut self, call: Call) -> Result<i64, Refusal>
        ensures answer { result ≡ answer call.account call.entry (kept self.old) }
        ensures leaves { Leaves self.old self.new (after call.account call.entry (kept self.old)) }
    {
        let account = self.find(call.account)?;
        let added = account.added_by(call.entry)?;
        self.change(Account {
            number: call.account,
            balance: account.balance + added,
        })?;
        Ok(added)
    }

    // Post, pay and late are calls with one entry each: they say in a word which is meant, and what is done is said once,
    // above.

    // Adds an amount to the balance of the account with this number.
    pub fn post(&mut self, number: u32, amount: i64) -> Result<i64, Refusal>
        ensures answer { result ≡ answer number (Entry.Post amount) (kept self.old) }
        ensures leaves { Leaves self.old self.new (after number (Entry.Post amount) (kept self.old)) }
    {
        self.enter(Entry::Post { amount }.on(number))
    }

    // Subtracts an amount from the balance of the account with this number.
    pub fn pay(&mut self, number: u32, amount: i64) -> Result<i64, Refusal>
        ensures answer { result ≡ answer number (Entry.Pay amount) (kept self.old) }
        ensures leaves { Leaves self.old self.new (after number (Entry.Pay amount) (kept self.old)) }
    {
        self.enter(Entry::Pay { amount }.on(number))
    }

    // Adds the late charge to the balance of the account with this number.
    pub fn late(&mut self, number: u32) -> Result<i64, Refusal>
        ensures answer { result ≡ answer number Entry.Late (kept self.old) }
        ensures leaves { Leaves self.old self.new (after number Entry.Late (kept self.old)) }
    {
        self.enter(Entry::Late.on(number))
    }

    // Makes the calls in order, as many as there is room for their answers, and says how many these are. The memory for the
    // answers is the caller's, as no heap is used, and may have room for fewer than there are calls.
    pub fn run(&mut self, calls: &[Call], answers: &mut [Result<i64, Refusal>]) -> usize
        ensures count { result ≡ min (length calls.now) (length answers.old) }
        ensures answers { answers.new ≡ answers_to (take result calls.now) (kept self.old) ++ drop result answers.old }
        ensures leaves { Leaves self.old self.new (after_all (take result calls.now) (kept self.old)) }
        ensures sums { (n : ℕ) → balance_of n (kept self.new) ≡ balance_of n (kept self.old) +ℤ sum_added n (take result calls.now) answers.new }
        ensures within { WithinLimit (kept self.old) → WithinLimit (kept self.new) }
    {
        let count = calls.len().min(answers.len());
        // By place: of what is written through `zip` over `iter_mut` a proof knows nothing after the loop.
        for (i, call) in calls[..count].iter().enumerate() {
            answers[i] = self.enter(*call);
        }
        count
    }
}
