ghost use Rattle.std.specs.Prelude.{◌≡◌};
ghost use Rattle.schedule.specs.Answers.{in_range};

// The gas that a charge is made on, in thousandths of a therm: a difference, which is negative where there was gas to
// spare, and a base.
#[derive(Clone, Copy, PartialEq, Eq, Debug)]
pub struct Gas {
    pub difference: i64,
    pub base: u64,
}

impl Gas {
    // Whether a schedule compares its lines at this difference and base.
    pub fn is_in_range(self) -> bool
        ensures { result ≡ in_range self.difference self.base }
    {
        self.difference.unsigned_abs() <= 62_000_000_000 && self.base <= 62_000_000_000
    }
}
