// What is printed of a month: the bills of a closed one, that it is open, or the fault of a file.
#![tactic(auto)]

mod listing;
mod sheet;

pub use listing::Listing;
pub use sheet::BLOCK;
