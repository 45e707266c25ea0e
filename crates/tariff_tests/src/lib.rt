// Worked examples of the schedules, and a schedule of another maker's.
#![tactic(auto)]

ghost use Rattle.tariff_tests.specs.Standing.{standing_lines, standing_lawful};

use schedule::{Gas, Line, Schedule, first_greatest};

// A schedule that the product does not have.
#[derive(Clone, Copy, PartialEq, Eq, Debug)]
pub struct Standing;

impl Schedule for Standing {
    ghost lines = { λ _. standing_lines };

    ghost lawful = { λ _. standing_lawful };

    fn line_at(&self, gas: Gas) -> Line {
        let lines = [
            Line { a: 3, b: -1 },
            Line { a: -3, b: 0 },
            Line { a: 3, b: -1 },
        ];
        first_greatest(&lines, gas)
    }
}

#[cfg(test)]
mod tests {
    use super::*;
    use schedule::charge_at;
    use tariff::{Formula, GreaterOf, Ladder, LineList, Overrun, Refusal, Tolerance};

    fn gas(difference: i64, base: u64) -> Gas {
        Gas { difference, base }
    }

    // The number by which a ladder is refused.
    fn refused(bands: u8, average: u32, lowest: u32) -> Option<u8> {
        let refusal = Ladder::new(bands, average, lowest).err()?;
        Some(refusal.number())
    }

    fn cash_out(bands: u8, average: u32, lowest: u32, difference: i64, base: u64) -> Option<i128> {
        let ladder = Ladder::new(bands, average, lowest).ok()?;
        Some(ladder.charge(gas(difference, base)).grains)
    }

    // Each band edge of 1,000 therms from both sides, in therms, with the charge in millions of grains.
    #[test]
    fn band_edges(rt: HostRuntime) {
        let cases: [(u8, i64, i128); 24] = [
            (6, 24, 48_000),
            (6, 26, 52_200),
            (6, 51, 107_400),
            (6, 76, 167_600),
            (6, 101, 232_800),
            (6, 124, 297_200),
            (6, 125, 300_000),
            (6, 126, 303_000),
            (6, -24, -38_400),
            (6, -26, -41_440),
            (6, -51, -77_280),
            (6, -76, -109_120),
            (6, -101, -136_960),
            (6, -124, -159_040),
            (6, -126, -160_800),
            (4, 99, 198_000),
            (4, 101, 202_200),
            (4, 201, 422_400),
            (4, 299, 657_600),
            (4, 301, 662_800),
            (4, -101, -161_440),
            (4, -201, -305_280),
            (4, -299, -430_720),
            (4, -301, -432_960),
        ];
        for (bands, therms, millions) in cases {
            let difference = therms.wrapping_mul(1000);
            let grains = millions.wrapping_mul(1_000_000);
            assert_eq!(rt;
                cash_out(bands, 5_000, 4_000, difference, 1_000_000),
                Some(grains)
            );
        }
    }

    #[test]
    fn prices(rt: HostRuntime) {
        assert_eq!(rt; refused(5, 30_001, 30_002), Some(46));
        assert_eq!(rt; refused(6, 30_001, 30_002), Some(2));
        assert_eq!(rt; refused(4, 29_999, 30_001), Some(2));
        assert_eq!(rt; refused(4, 4_000, 4_001), Some(3));
        assert_eq!(rt; refused(4, 0, 0), None);
        assert_eq!(rt; cash_out(6, 0, 0, 62_000_000_000, 0), Some(0));
        assert_eq!(rt; cash_out(6, 30_000, 0, -1_000, 1_000_000), Some(0));
        assert_eq!(rt;
            cash_out(6, 30_000, 30_000, 62_000_000_000, 0),
            Some(1_116_000_000_000_000_000)
        );
        assert_eq!(rt;
            cash_out(6, 30_000, 30_000, -62_000_000_000, 0),
            Some(-372_000_000_000_000_000)
        );
        assert_eq!(rt; cash_out(6, 5_000, 4_000, 0, 1_000_000), Some(0));
    }

    // One beyond the range the first line answers.
    #[test]
    fn range(rt: HostRuntime) {
        assert_eq!(rt;
            Tolerance.line_at(gas(62_000_000_000, 0)),
            Line {
                a: 100_000,
                b: -10_000,
            }
        );
        assert_eq!(rt;
            Tolerance.line_at(gas(-62_000_000_000, 62_000_000_000)),
            Line {
                a: -100_000,
                b: -10_000,
            }
        );
        assert_eq!(rt;
            Tolerance.line_at(gas(62_000_000_001, 0)),
            Line { a: 0, b: 0 }
        );
        assert_eq!(rt;
            Tolerance.line_at(gas(-62_000_000_001, 0)),
            Line { a: 0, b: 0 }
        );
        assert_eq!(rt;
            Overrun.line_at(gas(62_000_000_000, 62_000_000_001)),
            Line { a: 0, b: 0 }
        );
    }

    #[test]
    fn daily_charges(rt: HostRuntime) {
        assert_eq!(rt; Tolerance.charge(gas(100_000, 1_000_000)).grains, 0);
        assert_eq!(rt;
            Tolerance.charge(gas(101_000, 1_000_000)).grains,
            100_000_000
        );
        assert_eq!(rt;
            Tolerance.charge(gas(-101_000, 1_000_000)).grains,
            100_000_000
        );
        assert_eq!(rt; Overrun.charge(gas(100_000, 1_000_000)).grains, 0);
        assert_eq!(rt;
            Overrun.charge(gas(101_000, 1_000_000)).grains,
            12_000_000_000
        );
        assert_eq!(rt; Overrun.charge(gas(-500_000, 1_000_000)).grains, 0);
    }

    // Where lines give the same, the first of them answers.
    #[test]
    fn ties(rt: HostRuntime) {
        let lines = [
            Line { a: 1, b: 0 },
            Line { a: 2, b: -1 },
            Line { a: 3, b: -2 },
        ];
        let list = LineList { given: &lines };
        assert_eq!(rt; list.line_at(gas(5, 5)), Line { a: 1, b: 0 });
        assert_eq!(rt; list.line_at(gas(6, 5)), Line { a: 3, b: -2 });
        let both = GreaterOf {
            first: Standing,
            second: list,
        };
        assert_eq!(rt; both.line_at(gas(1, 0)), Line { a: 3, b: -1 });
    }

    fn passes(lines: &[Line]) -> bool {
        LineList { given: lines }.check().is_ok()
    }

    #[test]
    fn line_lists(rt: HostRuntime) {
        assert!(rt;
            passes(&[Line {
                a: -24_000_000,
                b: 6_000_000,
            }; 64],)
        );
        assert!(rt; !passes(&[Line { a: 5, b: 0 }; 65]));
        assert!(rt; !passes(&[]));
        assert!(rt;
            !passes(&[Line {
                a: 24_000_001,
                b: 0,
            }],)
        );
        assert!(rt;
            !passes(&[Line {
                a: 0,
                b: -6_000_001,
            }],)
        );
        let too_many = [Line { a: 5, b: 0 }; 65];
        assert_eq!(rt;
            LineList { given: &too_many }.line_at(gas(9, 9)),
            Line { a: 0, b: 0 }
        );
    }

    // A schedule of another maker's, alone and piled on the product's.
    #[test]
    fn another_makers_schedule(rt: HostRuntime) {
        assert_eq!(rt; charge_at(&Standing, gas(10, 4)).grains, 26);
        assert_eq!(rt; charge_at(&Standing, gas(-10, 4)).grains, 30);
        let pile = GreaterOf {
            first: GreaterOf {
                first: Standing,
                second: Tolerance,
            },
            second: Overrun,
        };
        assert_eq!(rt; charge_at(&pile, gas(-1, 0)).grains, 100_000);
        assert_eq!(rt; charge_at(&pile, gas(1, 0)).grains, 12_000_000);
        assert_eq!(rt; charge_at(&pile, gas(1, 10)).grains, 0);
    }
}
