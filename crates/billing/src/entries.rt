// What is entered in an account, with amounts in cents.
ghost use Rattle.std.specs.Prelude.{◌≡◌};

#[derive(Clone, Copy, PartialEq, Eq, Debug)]
pub enum Entry {
    // Adds an amount to the balance.
    Post { amount: i64 },
    // Subtracts an amount from the balance.
    Pay { amount: i64 },
    // Adds the late charge on the balance.
    Late,
}

// A call on the account with this number.
#[derive(Clone, Copy, PartialEq, Eq, Debug)]
pub struct Call {
    pub account: u32,
    pub entry: Entry,
}

impl Entry {
    // The call that makes this entry in the account with this number.
    pub(crate) fn on(self, account: u32) -> Call
        ensures account { result.account ≡ account }
        ensures entry { result.entry ≡ self }
    {
        Call {
            account,
            entry: self,
        }
    }
}
