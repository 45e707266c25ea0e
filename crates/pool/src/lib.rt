// The pool book: a month of a pool's members, kept as the agreement's plain book says.
#![tactic(auto)]

mod book;
mod calls;
mod closing;
mod gas;
mod lines;
mod row;
mod runs;
mod schedules;
mod settle;
mod settlement;
mod shares;
mod table;

pub use book::PoolBook;
pub use runs::Outcome;
pub use settlement::Settlement;
