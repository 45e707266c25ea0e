ghost use Rattle.tariff.specs.Daily.{overrun_lines, overrun_lawful, overrun_charge};
ghost use Rattle.tariff.specs.DailyCharges.{overrun_charges};

use super::formula::Formula;
use schedule::{Gas, Line, Schedule, first_greatest};

// The overrun charge of a notified day: $3.00 a therm on what is used above 110 percent of the nomination. The
// difference is what is used less what is nominated, and the base what is nominated.
#[derive(Clone, Copy, PartialEq, Eq, Debug)]
pub struct Overrun;

// Its lines are all that it has of its own.
impl Schedule for Overrun {
    ghost lines = { λ _. overrun_lines };

    ghost lawful = { λ _. overrun_lawful };

    fn line_at(&self, gas: Gas) -> Line {
        let lines = [
            Line::GIVES_NOTHING,
            Line {
                a: 12_000_000,
                b: -1_200_000,
            },
        ];
        first_greatest(&lines, gas)
    }
}

impl Formula for Overrun {
    ghost formula = { λ _. overrun_charge };

    ghost agrees = { λ _. overrun_charges };
}
