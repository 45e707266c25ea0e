// What a month file means, apart from the code that reads it: why reading stops, and, in specs/, the month that the
// bytes of a file make.
#![tactic(auto)]

mod errors;
mod fault;

pub use errors::{FileError, MissingRead};
pub use fault::Fault;
