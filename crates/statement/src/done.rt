// What there is to print of a request that was carried out, with amounts in cents.
use billing::{Bill, Entry};

#[derive(Clone, Copy, PartialEq, Eq, Debug)]
pub(crate) enum Done {
    // a sheet or a member was added
    Added,
    // a bill was made and posted, and the balance is now this
    Billed {
        bill: Bill,
        balance: i64,
    },
    // an entry added this to the balance, which is now this
    Entered {
        entry: Entry,
        added: i64,
        balance: i64,
    },
}
