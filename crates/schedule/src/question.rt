ghost use Rattle.std.specs.Prelude.{◌≡◌, true, List};
ghost use Rattle.schedule.specs.declared.line.Line.{Line};
ghost use Rattle.schedule.specs.Schedules.{is_schedule};
ghost use Rattle.schedule.specs.Answers.{answer};

use super::gas::Gas;
use super::line::Line;

// A charge schedule, known by its list of lines.
pub trait Schedule {
    // the lines, in their order
    ghost lines: { Self → List Line };

    // The question: the first line that gives the greatest amount, or the first of the list out of range.
    fn line_at(&self, gas: Gas) -> Line
        ensures { result ≡ answer gas.difference gas.base (lines self.now) };

    // there is one or more, and each is within the limits
    ghost lawful: { (s : Self) → is_schedule (lines s) ≡ true };
}
