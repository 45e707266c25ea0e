ghost use Rattle.std.specs.Prelude.{◌≡◌};
ghost use Rattle.schedule.specs.Lines.{amount};
ghost use Rattle.schedule.specs.Answers.{answer};
ghost use Rattle.schedule.specs.Laws.{Fixed, PoolingSaves};

use super::gas::Gas;
use super::line::Line;
use super::question::Schedule;

// A charge: the line that fixed it, and what that line gives in grains.
#[derive(Clone, Copy, PartialEq, Eq, Debug)]
pub struct Charge {
    pub line: Line,
    pub grains: i128,
}

// Puts the question to a schedule, and charges what the answered line gives.
pub fn charge_at<S: Schedule>(schedule: &S, gas: Gas) -> Charge
    ensures line { result.line ≡ answer gas.difference gas.base (S.lines schedule.now) }
    ensures grains { result.grains ≡ amount gas.difference gas.base result.line }
    ensures fixed { Fixed gas.difference gas.base (S.lines schedule.now) result.line result.grains }
    ensures pooling { PoolingSaves (S.lines schedule.now) }
{
    let line = schedule.line_at(gas);
    Charge {
        line,
        grains: line.amount(gas),
    }
}
