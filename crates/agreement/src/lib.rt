// What a pool's agreement promises, apart from any code that keeps it: the calls of a month, why a call is
// refused, and the limits. The plain book, from which every call is answered, stands in specs/.
#![tactic(auto)]

mod bills;
mod calls;
mod day;
mod days;
mod limits;
mod refusals;
mod status;

pub use bills::Bill;
pub use calls::{Call, Posting};
pub use day::Day;
pub use days::Days;
pub use limits::{MOST_MEMBERS, MOST_RETENTION, MOST_THERMS};
pub use refusals::Refusal;
pub use rules::{LEAST_DAYS, MOST_DAYS};
pub use schedule::Gas;
pub use status::Status;
