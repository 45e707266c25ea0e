// Whole months, closed and settled: over the product's schedules, and over schedules of the tests' own making.
#![tactic(auto)]

ghost use Rattle.std.specs.Prelude.{◌≡◌, true, ◌&&◌, [], ◌∷◌};
ghost use Rattle.std.proofs.Common.{ap};
ghost use Rattle.schedule.specs.Lines.{within_limits};

#[cfg(test)]
mod tests {
    use agreement::{Call, Days, Posting, Refusal};
    use pool::{Outcome, PoolBook};
    use schedule::{Gas, Line, Schedule, first_greatest};
    use std::process::Abort;
    use std::test::Fail;
    use tariff::{Ladder, Overrun, Tolerance};

    // A schedule of one line.
    #[derive(Clone, Copy)]
    struct OneLine {
        line: Line,
        ghost within: { within_limits line ≡ true },
    }

    impl Schedule for OneLine {
        ghost lines = { λ s. s.line ∷ [] };

        ghost lawful = { λ s. ap (λ b. b && true) s.within };

        fn line_at(&self, gas: Gas) -> Line {
            first_greatest(&[self.line], gas)
        }
    }

    // Charges nothing.
    const FREE: OneLine = OneLine {
        line: Line::GIVES_NOTHING,
    };

    // Charges 16 grains a thousandth of a therm of the base.
    const ON_BASE: OneLine = OneLine {
        line: Line { a: 0, b: 16 },
    };

    // Charges half a cent on 1,000 therms of the base.
    const HALF_A_CENT: OneLine = OneLine {
        line: Line { a: 0, b: 20 },
    };

    // Credits half a cent on 1,000 therms of the base.
    const HALF_A_CENT_BACK: OneLine = OneLine {
        line: Line { a: 0, b: -20 },
    };

    // Gas that is posted for a member and a day.
    fn posting(account: u32, day: u8, therms: u32) -> Posting {
        Posting {
            account,
            day,
            therms,
        }
    }

    // Enrols a member that nominates and uses so much on day 1 of 28, and nothing on every later day.
    fn enrol_and_read<M: Schedule, D: Schedule, O: Schedule>(
        book: &mut PoolBook<M, D, O>,
        account: u32,
        therms: u32,
    ) -> Result<(), Refusal> {
        book.enrol(account, 0)?;
        book.nominate(posting(account, 1, therms))?;
        book.nominate(posting(account, 2, 0))?;
        book.read(posting(account, 1, therms))?;
        for day in 2..29u8 {
            book.read(posting(account, day, 0))?;
        }
        Ok(())
    }

    #[test]
    fn two_members_share_a_cash_out(rt: HostRuntime) -> Result<(), Fail> {
        let Ok(days) = Days::try_from(28) else {
            return Err(Fail::new("days"));
        };
        let Ok(ladder) = Ladder::new(6, 5_000, 4_000) else {
            return Err(Fail::new("ladder"));
        };
        let mut book = PoolBook::new(days, ladder, Tolerance, Overrun);
        assert_eq!(rt; enrol_and_read(&mut book, 101, 1_000), Ok(()));
        assert_eq!(rt; enrol_and_read(&mut book, 102, 1_000), Ok(()));
        let calls = [
            Call::Receive(posting(101, 1, 900)),
            Call::Receive(posting(102, 1, 1_020)),
            Call::Close,
        ];
        let Outcome {
            answers,
            settlement,
        } = book.run(rt.alloc(), &calls)?;
        assert!(rt; answers.len() == 3);
        let Ok(settlement) = settlement else {
            return Err(Fail::new("not closed"));
        };
        let bills = settlement.bills();
        assert!(rt; bills.len() == 2);
        assert_eq!(rt; bills[0].account, 101);
        assert_eq!(rt; bills[0].cash_out, 215_000_000_000);
        assert_eq!(rt; bills[0].cents, 5_375);
        assert_eq!(rt; bills[1].account, 102);
        assert_eq!(rt; bills[1].cents, -1_225);
        assert_eq!(rt; settlement.total_cents(), 4_150);
        Ok(())
    }

    // The cents of two members that nominate and use 1,000 therms on day 1, and receive so much, and their total.
    fn cents_of_two(rt: &impl Abort, first: u32, second: u32) -> Result<[i64; 3], Fail> {
        let Ok(days) = Days::try_from(28) else {
            return Err(Fail::new("days"));
        };
        let Ok(ladder) = Ladder::new(6, 5_000, 4_000) else {
            return Err(Fail::new("ladder"));
        };
        let mut book = PoolBook::new(days, ladder, Tolerance, Overrun);
        assert_eq!(rt; enrol_and_read(&mut book, 101, 1_000), Ok(()));
        assert_eq!(rt; enrol_and_read(&mut book, 102, 1_000), Ok(()));
        assert_eq!(rt; book.receive(posting(101, 1, first)), Ok(()));
        assert_eq!(rt; book.receive(posting(102, 1, second)), Ok(()));
        assert_eq!(rt; book.close(), Ok(()));
        let Ok(settlement) = book.settle() else {
            return Err(Fail::new("not closed"));
        };
        let bills = settlement.bills();
        assert!(rt; bills.len() == 2);
        Ok([bills[0].cents, bills[1].cents, settlement.total_cents()])
    }

    #[test]
    fn pools_all_short_and_all_long(rt: HostRuntime) -> Result<(), Fail> {
        assert_eq!(rt; cents_of_two(&rt, 960, 980)?, [2_075, 975, 3_050]);
        assert_eq!(rt; cents_of_two(&rt, 1_020, 1_040)?, [-820, -1_540, -2_360]);
        assert_eq!(rt; cents_of_two(&rt, 1_000, 1_000)?, [0, 0, 0]);
        Ok(())
    }

    // Forty members that use 50,000 therms on each of thirty-one notified days, and nominate and receive nothing.
    #[test]
    fn a_full_pool_at_the_limits(rt: HostRuntime) -> Result<(), Fail> {
        let Ok(days) = Days::try_from(31) else {
            return Err(Fail::new("days"));
        };
        let Ok(ladder) = Ladder::new(6, 30_000, 30_000) else {
            return Err(Fail::new("ladder"));
        };
        let mut book = PoolBook::new(days, ladder, Tolerance, Overrun);
        for account in 1..41u32 {
            assert_eq!(rt; book.enrol(account, 50), Ok(()));
            for day in 1..32u8 {
                assert_eq!(rt; book.read(posting(account, day, 50_000)), Ok(()));
            }
        }
        for day in 1..32u8 {
            assert_eq!(rt; book.notify(day), Ok(()));
        }
        assert_eq!(rt; book.close(), Ok(()));
        let Ok(settlement) = book.settle() else {
            return Err(Fail::new("not closed"));
        };
        let bills = settlement.bills();
        assert!(rt; bills.len() == 40);
        assert_eq!(rt; bills[39].cash_out, 27_202_500_000_000_000);
        assert_eq!(rt; bills[39].balancing, 155_000_000_000_000);
        assert_eq!(rt; bills[39].overrun, 18_600_000_000_000_000);
        assert_eq!(rt; bills[39].cents, 1_148_937_500);
        assert_eq!(rt; settlement.total_cents(), 45_957_500_000);
        Ok(())
    }

    #[test]
    fn small_shares_are_rounded_by_running_totals(rt: HostRuntime) -> Result<(), Fail> {
        let Ok(days) = Days::try_from(28) else {
            return Err(Fail::new("days"));
        };
        let mut book = PoolBook::new(days, ON_BASE, FREE, FREE);
        for account in 1..4u32 {
            assert_eq!(rt; enrol_and_read(&mut book, account, 1_000), Ok(()));
        }
        assert!(rt; book.settle().is_err());
        assert_eq!(rt; book.close(), Ok(()));
        let Ok(settlement) = book.settle() else {
            return Err(Fail::new("not closed"));
        };
        let bills = settlement.bills();
        assert!(rt; bills.len() == 3);
        assert_eq!(rt; bills[0].cents, 0);
        assert_eq!(rt; bills[1].cents, 1);
        assert_eq!(rt; bills[2].cents, 0);
        assert_eq!(rt; settlement.total_cents(), 1);
        Ok(())
    }

    // The cents of one member that is delivered 1,000 therms.
    fn cents_of_one(rt: &impl Abort, month: OneLine) -> Result<i64, Fail> {
        let Ok(days) = Days::try_from(28) else {
            return Err(Fail::new("days"));
        };
        let mut book = PoolBook::new(days, month, FREE, FREE);
        assert_eq!(rt; enrol_and_read(&mut book, 1, 1_000), Ok(()));
        assert_eq!(rt; book.close(), Ok(()));
        match book.shares(1) {
            Ok(bill) => Ok(bill.cents),
            Err(_) => Err(Fail::new("no bill")),
        }
    }

    #[test]
    fn halves_of_a_cent_are_rounded_up(rt: HostRuntime) -> Result<(), Fail> {
        assert_eq!(rt; cents_of_one(&rt, HALF_A_CENT)?, 1);
        assert_eq!(rt; cents_of_one(&rt, HALF_A_CENT_BACK)?, 0);
        Ok(())
    }

    #[test]
    fn shares_are_asked_for_once_the_month_is_closed(rt: HostRuntime) -> Result<(), Fail> {
        let Ok(days) = Days::try_from(28) else {
            return Err(Fail::new("days"));
        };
        let mut book = PoolBook::new(days, FREE, Tolerance, Overrun);
        assert_eq!(rt; book.enrol(7, 0), Ok(()));
        assert_eq!(rt; book.nominate(posting(7, 1, 1_000)), Ok(()));
        assert_eq!(rt; book.read(posting(7, 1, 1_101)), Ok(()));
        for day in 2..29u8 {
            assert_eq!(rt; book.read(posting(7, day, 1_000)), Ok(()));
        }
        assert_eq!(rt; book.notify(1), Ok(()));
        assert!(rt; book.shares(7).is_err());
        assert_eq!(rt; book.close(), Ok(()));
        let Ok(bill) = book.shares(7) else {
            return Err(Fail::new("no bill"));
        };
        assert_eq!(rt; bill.balancing, 100_000_000);
        assert_eq!(rt; bill.overrun, 12_000_000_000);
        assert_eq!(rt; bill.cents, 303);
        match book.shares(8) {
            Ok(_) => Err(Fail::new("not enrolled")),
            Err(refusal) => {
                assert_eq!(rt; refusal.number(), 16);
                Ok(())
            },
        }
    }
}
