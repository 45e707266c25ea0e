// Worked examples of sheets, bills and accounts.
#![tactic(auto)]

#[cfg(test)]
mod tests {
    use billing::{
        Account, Bill, Block, Blocks, Call, Entry, Keeping, Numbered, RateSheet, Refusal, Usage,
        late_charge,
    };
    use std::test::Fail;

    const MOST: i64 = 200_000_000_000;

    // The number that a call was refused by; none where it was accepted.
    fn refused<T: Drop>(answer: Result<T, Refusal>) -> Option<u8> {
        answer.err().map(Refusal::number)
    }

    fn balance(accounts: &Keeping<Account>, number: u32) -> Option<i64> {
        accounts.find(number).ok().map(Account::balance)
    }

    // The number of the record at a place, if there is one.
    fn number_at(accounts: &Keeping<Account>, place: usize) -> Option<u32> {
        accounts
            .records()
            .get(place)
            .map(|account| account.number())
    }

    fn three_blocks() -> Blocks {
        Blocks::Three {
            first: Block {
                end: 10,
                rate: 384_023,
            },
            second: Block {
                end: 100,
                rate: 998_460,
            },
            rate: 556_674,
        }
    }

    fn usage(days: u8, served: u8, therms: u32) -> Usage {
        Usage {
            days,
            served,
            therms,
            pool_cents: 0,
        }
    }

    fn gas_cents(answer: Result<Bill, Refusal>) -> Option<u64> {
        answer.ok().map(|bill| bill.gas_cents)
    }

    fn monthly_cents(answer: Result<Bill, Refusal>) -> Option<u64> {
        answer.ok().map(|bill| bill.monthly_cents)
    }

    // Late on the amounts next to each edge, and none on credit.
    #[test]
    fn late_charges(rt: HostRuntime) {
        let cases: [(i64, i64); 9] = [
            (4, 0),
            (5, 1),
            (300, 30),
            (301, 30),
            (316, 30),
            (317, 31),
            (10_000, 321),
            (0, 0),
            (-10_000, 0),
        ];
        for (owed, charge) in cases {
            assert_eq!(rt; late_charge(owed), charge);
        }
    }

    // Additions at the end, at the front and in the middle; a full memory; a number in use before full.
    #[test]
    fn additions(rt: HostRuntime) {
        let mut memory = [Account::new(0); 3];
        let mut accounts = Keeping::new(&mut memory);
        assert_eq!(rt; accounts.records().len(), 0);
        assert_eq!(rt; refused(accounts.find(20)), Some(53));
        assert_eq!(rt; refused(accounts.add(Account::new(20))), None);
        assert_eq!(rt; refused(accounts.add(Account::new(10))), None);
        assert_eq!(rt; refused(accounts.add(Account::new(20))), Some(52));
        assert_eq!(rt; refused(accounts.add(Account::new(15))), None);
        assert_eq!(rt; number_at(&accounts, 0), Some(10));
        assert_eq!(rt; number_at(&accounts, 1), Some(15));
        assert_eq!(rt; number_at(&accounts, 2), Some(20));
        assert_eq!(rt; refused(accounts.add(Account::new(15))), Some(52));
        assert_eq!(rt; refused(accounts.add(Account::new(30))), Some(51));
        assert_eq!(rt; refused(accounts.change(Account::new(30))), Some(53));
        assert_eq!(rt; accounts.records().len(), 3);
    }

    // One at the end of the numbers, and memory of size 0.
    #[test]
    fn added_last_and_nowhere(rt: HostRuntime) {
        let mut memory = [Account::new(0); 2];
        let mut accounts = Keeping::new(&mut memory);
        assert_eq!(rt; refused(accounts.add(Account::new(1))), None);
        assert_eq!(rt; refused(accounts.add(Account::new(2))), None);
        assert_eq!(rt; number_at(&accounts, 1), Some(2));
        let mut nothing: [Account; 0] = [];
        let mut none = Keeping::new(&mut nothing);
        assert_eq!(rt; refused(none.add(Account::new(1))), Some(51));
        assert_eq!(rt; refused(none.post(1, 1)), Some(53));
    }

    // What the lender finds in its memory: the records, and beyond them what was there.
    #[test]
    fn lent_memory(rt: HostRuntime) {
        let mut memory = [Account::new(9); 4];
        {
            let mut accounts = Keeping::new(&mut memory);
            assert_eq!(rt; refused(accounts.add(Account::new(2))), None);
            assert_eq!(rt; refused(accounts.add(Account::new(1))), None);
            assert_eq!(rt; refused(accounts.post(2, 5)), None);
        }
        assert_eq!(rt; memory[0].number(), 1);
        assert_eq!(rt; memory[1].number(), 2);
        assert_eq!(rt; memory[1].balance(), 5);
        assert_eq!(rt; memory[2].number(), 9);
        assert_eq!(rt; memory[3].number(), 9);
    }

    // Amounts at the limit and one cent beyond it; the balance at its limit and beyond it.
    #[test]
    fn amounts(rt: HostRuntime) {
        let mut memory = [Account::new(0); 2];
        let mut accounts = Keeping::new(&mut memory);
        assert_eq!(rt; refused(accounts.add(Account::new(7))), None);
        assert_eq!(rt; refused(accounts.post(8, MOST + 1)), Some(53));
        assert_eq!(rt; refused(accounts.post(7, MOST + 1)), Some(54));
        assert_eq!(rt; refused(accounts.pay(7, -MOST - 1)), Some(54));
        assert_eq!(rt; accounts.pay(7, MOST).ok(), Some(-MOST));
        assert_eq!(rt; balance(&accounts, 7), Some(-MOST));
        assert_eq!(rt; accounts.late(7).ok(), Some(0));
        assert_eq!(rt; accounts.post(7, MOST).ok(), Some(MOST));
        for _ in 0..5_000 {
            let _ = accounts.post(7, MOST);
        }
        assert_eq!(rt; balance(&accounts, 7), Some(1_000_000_000_000_000));
        assert_eq!(rt; refused(accounts.post(7, 1)), Some(56));
        assert_eq!(rt; refused(accounts.late(7)), Some(56));
        assert_eq!(rt; balance(&accounts, 7), Some(1_000_000_000_000_000));
    }

    // A run with a refused call; the memory for answers is shorter than the list.
    #[test]
    fn runs(rt: HostRuntime) {
        let mut memory = [Account::new(0); 2];
        let mut accounts = Keeping::new(&mut memory);
        assert_eq!(rt; refused(accounts.add(Account::new(7))), None);
        let calls = [
            Call {
                account: 7,
                entry: Entry::Post { amount: 10_000 },
            },
            Call {
                account: 8,
                entry: Entry::Post { amount: 5 },
            },
            Call {
                account: 7,
                entry: Entry::Late,
            },
            Call {
                account: 7,
                entry: Entry::Pay { amount: 321 },
            },
        ];
        let mut answers: [Result<i64, Refusal>; 3] = [Ok(0); 3];
        assert_eq!(rt; accounts.run(&calls, &mut answers), 3);
        assert_eq!(rt; answers[0].ok(), Some(10_000));
        assert_eq!(rt; refused(answers[1]), Some(53));
        assert_eq!(rt; answers[2].ok(), Some(321));
        assert_eq!(rt; balance(&accounts, 7), Some(10_321));
    }

    // The rules of a sheet, each at its edge, and their place before those of the keeping.
    #[test]
    fn sheets(rt: HostRuntime) -> Result<(), Fail> {
        let one = Blocks::One { rate: 9_999_999 };
        assert_eq!(rt; refused(RateSheet::new(1, 1_000_000, one)), None);
        assert_eq!(rt; refused(RateSheet::new(1, 1_000_001, one)), Some(55));
        assert_eq!(rt;
            refused(RateSheet::new(1, 0, Blocks::One { rate: 10_000_000 })),
            Some(55)
        );
        let flat = Block { end: 10, rate: 1 };
        let level = Blocks::Three {
            first: flat,
            second: flat,
            rate: 1,
        };
        assert_eq!(rt; refused(RateSheet::new(1, 0, level)), Some(55));
        let from_none = Blocks::Two {
            first: Block { end: 0, rate: 1 },
            rate: 1,
        };
        assert_eq!(rt; refused(RateSheet::new(1, 0, from_none)), Some(55));
        let sheet = RateSheet::new(1, 0, one)?;
        let mut memory = [sheet; 1];
        let mut sheets = Keeping::new(&mut memory);
        assert_eq!(rt; refused(sheets.add_sheet(4, 1_475, three_blocks())), None);
        assert_eq!(rt; refused(sheets.add_sheet(4, 1_000_001, one)), Some(55));
        assert_eq!(rt; refused(sheets.add_sheet(4, 0, one)), Some(52));
        assert_eq!(rt; refused(sheets.add_sheet(5, 0, one)), Some(51));
        Ok(())
    }

    // Gas at the end of each block and one therm beyond; days served none, half and all; the limits of a bill.
    #[test]
    fn bills(rt: HostRuntime) -> Result<(), Fail> {
        let sheet = RateSheet::new(1, 1_475, three_blocks())?;
        let mut memory = [sheet; 1];
        let mut sheets = Keeping::new(&mut memory);
        assert_eq!(rt; refused(sheets.add(sheet)), None);
        let gas: [(u32, u64); 7] = [
            (0, 0),
            (10, 384),
            (11, 484),
            (100, 9_370),
            (101, 9_426),
            (1_550_000, 86_288_273),
            (1, 38),
        ];
        for (therms, cents) in gas {
            assert_eq!(rt;
                gas_cents(sheets.bill(1, usage(30, 30, therms))),
                Some(cents)
            );
        }
        assert_eq!(rt; monthly_cents(sheets.bill(1, usage(30, 0, 0))), Some(0));
        assert_eq!(rt; monthly_cents(sheets.bill(1, usage(30, 15, 0))), Some(738));
        assert_eq!(rt;
            monthly_cents(sheets.bill(1, usage(30, 30, 0))),
            Some(1_475)
        );
        assert_eq!(rt; refused(sheets.bill(2, usage(27, 30, 1_550_001))), Some(53));
        assert_eq!(rt; refused(sheets.bill(1, usage(27, 30, 1_550_001))), Some(1));
        assert_eq!(rt; refused(sheets.bill(1, usage(32, 30, 0))), Some(1));
        assert_eq!(rt; refused(sheets.bill(1, usage(30, 31, 1_550_001))), Some(57));
        assert_eq!(rt; refused(sheets.bill(1, usage(30, 30, 1_550_001))), Some(58));
        Ok(())
    }

    // The total takes in the pool's cents, which may be a credit.
    #[test]
    fn totals(rt: HostRuntime) -> Result<(), Fail> {
        let sheet = RateSheet::new(1, 1_475, Blocks::One { rate: 768_465 })?;
        let mut memory = [sheet; 1];
        let mut sheets = Keeping::new(&mut memory);
        assert_eq!(rt; refused(sheets.add(sheet)), None);
        let month = Usage {
            days: 31,
            served: 31,
            therms: 100,
            pool_cents: -1_225,
        };
        let bill = sheets.bill(1, month)?;
        assert_eq!(rt; bill.monthly_cents, 1_475);
        assert_eq!(rt; bill.gas_cents, 7_685);
        assert_eq!(rt; bill.pool_cents, -1_225);
        assert_eq!(rt; bill.total_cents, 7_935);
        Ok(())
    }
}
