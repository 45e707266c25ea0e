ghost use Rattle.tariff.specs.Daily.{tolerance_lines, tolerance_lawful, tolerance_charge};
ghost use Rattle.tariff.specs.DailyCharges.{tolerance_charges};

use super::formula::Formula;
use schedule::{Gas, Line, Schedule, first_greatest};

// The daily balancing charge: $0.025 a therm on what lies beyond ten percent of the nomination, either way. The
// difference is what is used less what is nominated, and the base what is nominated.
#[derive(Clone, Copy, PartialEq, Eq, Debug)]
pub struct Tolerance;

// Its lines are all that it has of its own.
impl Schedule for Tolerance {
    ghost lines = { λ _. tolerance_lines };

    ghost lawful = { λ _. tolerance_lawful };

    fn line_at(&self, gas: Gas) -> Line {
        let lines = [
            Line::GIVES_NOTHING,
            Line {
                a: 100_000,
                b: -10_000,
            },
            Line {
                a: -100_000,
                b: -10_000,
            },
        ];
        first_greatest(&lines, gas)
    }
}

impl Formula for Tolerance {
    ghost formula = { λ _. tolerance_charge };

    ghost agrees = { λ _. tolerance_charges };
}
