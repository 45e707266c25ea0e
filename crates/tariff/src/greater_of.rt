ghost use Rattle.std.specs.Prelude.{◌++◌};
ghost use Rattle.tariff.specs.Joined.{joined_lawful};

use schedule::{Gas, Line, Schedule};

// Charges whichever of two schedules is greater. Its lines are the first one's followed by the second one's.
#[derive(Drop)]
pub struct GreaterOf<P, Q> {
    pub first: P,
    pub second: Q,
}

impl<P: Schedule, Q: Schedule> Schedule for GreaterOf<P, Q> {
    ghost lines = { λ s. P.Schedule.lines s.first ++ Q.Schedule.lines s.second };

    ghost lawful = { λ s. joined_lawful (P.Schedule.lines s.first) (Q.Schedule.lines s.second) (P.Schedule.lawful s.first) (Q.Schedule.lawful s.second) };

    fn line_at(&self, gas: Gas) -> Line {
        let first = self.first.line_at(gas);
        if !gas.is_in_range() {
            return first;
        }
        first.or_greater(self.second.line_at(gas), gas)
    }
}
