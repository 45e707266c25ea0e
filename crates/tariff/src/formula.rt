ghost use Rattle.std.specs.Prelude.{◌≡◌, ℕ, ℤ};
ghost use Rattle.schedule.specs.Charges.{charge};
ghost use Rattle.tariff.specs.Formulas.{ChargedBy};

use schedule::{Charge, Gas, Schedule, charge_at};

// A schedule whose charge the tariff also states as a formula of the difference and the base.
pub trait Formula: Schedule {
    // what is charged, in grains
    ghost formula: { Self → ℤ → ℕ → ℤ };

    // The charge at some gas.
    final fn charge(&self, gas: Gas) -> Charge
        ensures { ChargedBy (formula self.now) (Self.lines self.now) gas.difference gas.base result.line result.grains }
    {
        charge_at(self, gas)
    }

    // the lines charge just that, at every difference and base
    ghost agrees: { (s : Self) (d : ℤ) (m : ℕ) → charge d m (Self.lines s) ≡ formula s d m };
}
