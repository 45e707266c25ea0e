// Rate sheets, bills, accounts and the late charge, kept by number in memory that the caller lends.
#![tactic(auto)]

mod account;
mod bill;
mod entries;
mod keeping;
mod ledger;
mod limits;
mod records;
mod refusals;
mod rounding;
mod sheet;

pub use account::{Account, late_charge};
pub use bill::{Bill, Usage};
pub use entries::{Call, Entry};
pub use keeping::{Keeping, Numbered};
pub use refusals::Refusal;
pub use sheet::{Block, Blocks, RateSheet};
