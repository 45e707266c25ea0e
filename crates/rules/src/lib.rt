// What the rules of the other crates are made of: the days that a month can have, and, in specs/, a row of checks of which
// the first that applies decides.
#![tactic(auto)]

mod days;

pub use days::{LEAST_DAYS, MOST_DAYS, is_month_length};
