// The pool book that a month file is read into.
use pool::PoolBook;
use tariff::{Ladder, Overrun, Tolerance};

// A book over the ladder of the file's set-up, the tolerance and the overrun.
pub type MonthBook = PoolBook<Ladder, Tolerance, Overrun>;
