// Charge schedules: what one means, the question that every one of them answers, and the charge that the answer fixes.
#![tactic(auto)]

mod answer;
mod charge;
mod gas;
mod line;
mod question;

pub use answer::first_greatest;
pub use charge::{Charge, charge_at};
pub use gas::Gas;
pub use line::Line;
pub use question::Schedule;
