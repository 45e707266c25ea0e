// The edges of the pool book's calls, run.
#![tactic(auto)]

ghost use Rattle.std.specs.Prelude.{[], ◌∷◌, pos, refl};
ghost use Rattle.schedule.specs.Lines.{line};

#[cfg(test)]
mod tests {
    use agreement::{Call, Days, Posting, Refusal};
    use pool::{Outcome, PoolBook};
    use schedule::{Gas, Line, Schedule, first_greatest};
    use std::test::Fail;

    // A schedule that charges nothing.
    #[derive(Drop)]
    struct Free;

    impl Schedule for Free {
        ghost lines = { λ _. line (pos 0) (pos 0) ∷ [] };

        ghost lawful = { λ _. refl };

        fn line_at(&self, gas: Gas) -> Line {
            first_greatest(&[Line::GIVES_NOTHING], gas)
        }
    }

    // The number that a number of days is refused with.
    fn days_refused(count: u8) -> Option<u8> {
        let refusal = Days::try_from(count).err()?;
        Some(refusal.number())
    }

    // Gas that is posted for a member and a day.
    fn posting(account: u32, day: u8, therms: u32) -> Posting {
        Posting {
            account,
            day,
            therms,
        }
    }

    #[test]
    fn a_month_has_28_to_31_days(rt: HostRuntime) {
        assert_eq!(rt; days_refused(27), Some(1));
        assert_eq!(rt; days_refused(28), None);
        assert_eq!(rt; days_refused(31), None);
        assert_eq!(rt; days_refused(32), Some(1));
    }

    #[test]
    fn forty_members_are_taken(rt: HostRuntime) -> Result<(), Fail> {
        let Ok(days) = Days::try_from(31) else {
            return Err(Fail::new("days"));
        };
        let mut book = PoolBook::new(days, Free, Free, Free);
        for account in 1..41u32 {
            assert_eq!(rt; book.enrol(account, 0), Ok(()));
        }
        assert_eq!(rt; book.enrol(41, 0), Err(Refusal::PoolFull));
        assert_eq!(rt; book.read(posting(40, 31, 50_000)), Ok(()));
        assert_eq!(rt; book.read(posting(41, 31, 0)), Err(Refusal::NotEnrolled));
        Ok(())
    }

    #[test]
    fn enrolment_has_edges(rt: HostRuntime) -> Result<(), Fail> {
        let Ok(days) = Days::try_from(28) else {
            return Err(Fail::new("days"));
        };
        let mut book = PoolBook::new(days, Free, Free, Free);
        assert_eq!(rt; book.enrol(0, 0), Err(Refusal::AccountZero));
        assert_eq!(rt; book.enrol(4_294_967_295, 50), Ok(()));
        assert_eq!(rt; book.enrol(7, 51), Err(Refusal::RetentionTooHigh));
        assert_eq!(rt;
            book.enrol(4_294_967_295, 51),
            Err(Refusal::AlreadyEnrolled)
        );
        assert_eq!(rt; book.receive(posting(4_294_967_295, 1, 900)), Ok(()));
        Ok(())
    }

    #[test]
    fn a_posting_has_edges(rt: HostRuntime) -> Result<(), Fail> {
        let Ok(days) = Days::try_from(28) else {
            return Err(Fail::new("days"));
        };
        let mut book = PoolBook::new(days, Free, Free, Free);
        assert_eq!(rt; book.enrol(101, 0), Ok(()));
        assert_eq!(rt; book.nominate(posting(101, 28, 50_000)), Ok(()));
        assert_eq!(rt;
            book.nominate(posting(101, 28, 50_001)),
            Err(Refusal::TooManyTherms)
        );
        assert_eq!(rt; book.read(posting(101, 0, 0)), Err(Refusal::NoSuchDay));
        assert_eq!(rt;
            book.read(posting(101, 29, 50_001)),
            Err(Refusal::NoSuchDay)
        );
        assert_eq!(rt; book.notify(0), Err(Refusal::NoSuchDay));
        assert_eq!(rt; book.notify(28), Ok(()));
        assert_eq!(rt; book.notify(29), Err(Refusal::NoSuchDay));
        Ok(())
    }

    #[test]
    fn a_pool_without_members_is_not_closed(rt: HostRuntime) -> Result<(), Fail> {
        let Ok(days) = Days::try_from(28) else {
            return Err(Fail::new("days"));
        };
        let mut book = PoolBook::new(days, Free, Free, Free);
        assert_eq!(rt; book.close(), Err(Refusal::NoMember));
        assert_eq!(rt; Refusal::NoMember.number(), 22);
        assert_eq!(rt; book.enrol(101, 0), Ok(()));
        Ok(())
    }

    #[test]
    fn a_month_closes_once_every_day_is_read(rt: HostRuntime) -> Result<(), Fail> {
        let Ok(days) = Days::try_from(28) else {
            return Err(Fail::new("days"));
        };
        let mut book = PoolBook::new(days, Free, Free, Free);
        assert_eq!(rt; book.enrol(101, 0), Ok(()));
        for day in 1..28u8 {
            assert_eq!(rt; book.read(posting(101, day, 0)), Ok(()));
        }
        assert_eq!(rt;
            book.close(),
            Err(Refusal::ReadMissing { member: 1, day: 28 })
        );
        assert_eq!(rt; book.read(posting(101, 28, 900)), Ok(()));
        assert_eq!(rt; book.close(), Ok(()));
        assert_eq!(rt; book.enrol(102, 0), Err(Refusal::MonthClosed));
        assert_eq!(rt;
            book.nominate(posting(101, 1, 900)),
            Err(Refusal::MonthClosed)
        );
        assert_eq!(rt; book.read(posting(101, 1, 900)), Err(Refusal::MonthClosed));
        assert_eq!(rt;
            book.receive(posting(101, 1, 900)),
            Err(Refusal::MonthClosed)
        );
        assert_eq!(rt; book.notify(1), Err(Refusal::MonthClosed));
        assert_eq!(rt; book.close(), Err(Refusal::MonthClosed));
        Ok(())
    }

    #[test]
    fn the_first_missing_read_is_named(rt: HostRuntime) -> Result<(), Fail> {
        let Ok(days) = Days::try_from(31) else {
            return Err(Fail::new("days"));
        };
        let mut book = PoolBook::new(days, Free, Free, Free);
        assert_eq!(rt; book.enrol(101, 0), Ok(()));
        assert_eq!(rt; book.enrol(102, 0), Ok(()));
        assert_eq!(rt;
            book.close(),
            Err(Refusal::ReadMissing { member: 1, day: 1 })
        );
        for day in 1..32u8 {
            assert_eq!(rt; book.read(posting(101, day, 0)), Ok(()));
        }
        assert_eq!(rt; book.read(posting(102, 1, 0)), Ok(()));
        assert_eq!(rt;
            book.close(),
            Err(Refusal::ReadMissing { member: 2, day: 2 })
        );
        Ok(())
    }

    #[test]
    fn a_list_of_calls_is_answered_in_order(rt: HostRuntime) -> Result<(), Fail> {
        let Ok(days) = Days::try_from(28) else {
            return Err(Fail::new("days"));
        };
        let mut book = PoolBook::new(days, Free, Free, Free);
        let calls = [
            Call::Enrol {
                account: 101,
                retention: 7,
            },
            Call::Enrol {
                account: 101,
                retention: 7,
            },
            Call::Receive(posting(102, 1, 900)),
        ];
        let Outcome {
            answers,
            settlement,
        } = book.run(rt.alloc(), &calls)?;
        assert!(rt; settlement.is_err());
        assert!(rt; answers.len() == 3);
        assert_eq!(rt; answers[0], Ok(()));
        assert_eq!(rt; answers[1], Err(Refusal::AlreadyEnrolled));
        assert_eq!(rt; answers[2], Err(Refusal::NotEnrolled));
        Ok(())
    }
}
