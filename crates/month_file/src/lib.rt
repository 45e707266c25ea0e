// Reads a month file into a pool book.
#![tactic(auto)]

mod book;
mod file;
mod posting;
mod records;

pub use book::MonthBook;
pub use file::read_month;
