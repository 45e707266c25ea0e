// The schedules of the product: the cash-out ladder, the daily tolerance, the overrun, a supplier's own list of lines,
// and the greater of any two.
#![tactic(auto)]

mod formula;
mod greater_of;
mod ladder;
mod line_list;
mod overrun;
mod refusal;
mod tolerance;

pub use formula::Formula;
pub use greater_of::GreaterOf;
pub use ladder::{Bands, Ladder};
pub use line_list::LineList;
pub use overrun::Overrun;
pub use refusal::Refusal;
pub use tolerance::Tolerance;
