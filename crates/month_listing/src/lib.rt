// From the bytes of a month file to what is printed of them.
#![tactic(auto)]

mod printing;

pub use printing::list_month;
