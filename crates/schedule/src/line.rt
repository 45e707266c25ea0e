ghost use Rattle.std.specs.Prelude.{◌≡◌, ◌^◌, ◌≤◌, ◌*ℤ◌, unsigned_abs};
ghost use Rattle.schedule.specs.Lines.{amount, within_limits, greater_of};

use super::gas::Gas;

// A line of a charge schedule, in grains per thousandth of a therm: `a` of the difference and `b` of the base.
#[derive(Clone, Copy, PartialEq, Eq, Debug)]
pub struct Line {
    pub a: i32,
    pub b: i32,
}

// A rate times a quantity of at most 64 bits.
fn times(rate: i32, quantity: i128) -> i128
    requires { unsigned_abs quantity ≤ 2 ^ 64 }
    ensures value { result ≡ rate *ℤ quantity }
    ensures bound { unsigned_abs result ≤ 2 ^ 95 }
{
    rate as i128 * quantity
}

impl Line {
    // The line (0, 0).
    pub const GIVES_NOTHING: Line = Line { a: 0, b: 0 };

    // What the line gives at a difference and a base, in grains.
    pub fn amount(self, gas: Gas) -> i128
        ensures { result ≡ amount gas.difference gas.base self }
    {
        times(self.a, gas.difference as i128) + times(self.b, gas.base as i128)
    }

    // Whether the line lies within the limits of a schedule's lines.
    pub fn is_within_limits(self) -> bool
        ensures { result ≡ within_limits self }
    {
        -24_000_000 <= self.a && self.a <= 24_000_000 && -6_000_000 <= self.b && self.b <= 6_000_000
    }

    // The other line where it gives more, otherwise this one.
    pub fn or_greater(self, other: Line, gas: Gas) -> Line
        ensures { result ≡ greater_of gas.difference gas.base self other }
    {
        if other.amount(gas) > self.amount(gas) {
            other
        } else {
            self
        }
    }
}
