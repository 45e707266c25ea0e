// A line of text read word by word, and an amount of money in dollars.
#![tactic(auto)]

mod dollars;
mod words;

pub use dollars::{Cents, Dollars, Grains};
pub use words::{Fault, LineReader};
