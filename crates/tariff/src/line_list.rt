ghost use Rattle.std.specs.Prelude.{◌≡◌};
ghost use Rattle.schedule.specs.Schedules.{all_within_limits};
ghost use Rattle.tariff.specs.LineLists.{listed, listed_lawful, line_list_check};

use super::refusal::Refusal;
use schedule::{Gas, Line, Schedule, first_greatest};

// the most lines that a list may have
const MOST_LINES: usize = 64;

// A supplier's own lines, in memory that it lends for reading. A list that fails the check means the one line (0, 0).
#[derive(Clone, Copy, PartialEq, Eq, Debug)]
pub struct LineList<'a> {
    pub given: &'a [Line],
}

// Whether every line is within the limits.
fn all_within_limits(lines: &[Line]) -> bool
    ensures { result ≡ all_within_limits lines.now }
{
    lines.iter().all(|line| line.is_within_limits())
}

impl LineList<'_> {
    // Tests that there are 1 to 64 lines, each within the limits.
    pub fn check(&self) -> Result<(), Refusal>
        ensures { result ≡ line_list_check self.now.given.now }
    {
        let lines = self.given;
        if lines.is_empty() || lines.len() > MOST_LINES || !all_within_limits(lines) {
            return Err(Refusal::BadLineList);
        }
        Ok(())
    }
}

impl Schedule for LineList<'_> {
    ghost lines = { λ s. listed s.given.now };

    ghost lawful = { λ s. listed_lawful s.given.now };

    fn line_at(&self, gas: Gas) -> Line {
        match self.check() {
            Ok(()) => first_greatest(self.given, gas),
            Err(_) => Line::GIVES_NOTHING,
        }
    }
}
