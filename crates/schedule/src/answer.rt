ghost use Rattle.std.specs.Prelude.{◌≡◌};
ghost use Rattle.schedule.specs.Answers.{answer};

use super::gas::Gas;
use super::line::Line;

// The answer of a schedule that has these lines; of no lines, the line that gives nothing.
pub fn first_greatest(lines: &[Line], gas: Gas) -> Line
    ensures { result ≡ answer gas.difference gas.base lines.now }
{
    let [first, rest @ ..] = lines else {
        return Line::GIVES_NOTHING;
    };
    let mut best = *first;
    if gas.is_in_range() {
        for line in rest {
            best = best.or_greater(*line, gas);
        }
    }
    best
}
