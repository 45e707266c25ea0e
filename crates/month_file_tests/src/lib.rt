// The edges of a month file, run: every fault with its six numbers, and the listing of a whole month.
#![tactic(auto)]

#[cfg(test)]
mod tests {
    use listing::BLOCK;
    use month_file::read_month;
    use month_listing::list_month;
    use month_meaning::Fault;
    use std::alloc::AllocError;
    use std::test::Fail;

    // The six numbers of a fault.
    #[derive(Clone, Copy, PartialEq, Eq, Debug)]
    struct Numbers {
        layer: u8,
        number: u8,
        nth: u32,
        byte: u32,
        member: u8,
        day: u8,
    }

    impl From<Fault> for Numbers {
        fn from(fault: Fault) -> Numbers {
            Numbers {
                layer: fault.layer().number(),
                number: fault.number(),
                nth: fault.nth(),
                byte: fault.byte(),
                member: fault.member(),
                day: fault.day(),
            }
        }
    }

    // The fault of a file that is read into no book, if it has one.
    fn fault_of(file: &[u8]) -> Option<Numbers> {
        let mut book = None;
        read_month(&mut book, file).err().map(Numbers::from)
    }

    // The fault of a refusal in a record, where no read is missing.
    fn fault(layer: u8, number: u8, nth: u32, byte: u32) -> Option<Numbers> {
        Some(Numbers {
            layer,
            number,
            nth,
            byte,
            member: 0,
            day: 0,
        })
    }

    #[test]
    fn bytes_that_are_no_file(rt: HostRuntime) {
        assert_eq!(rt; fault_of(&[]), fault(1, 41, 0, 0));
        assert_eq!(rt; fault_of(&[2]), fault(1, 41, 0, 0));
        assert_eq!(rt; fault_of(&[1]), fault(2, 45, 1, 1));
        assert_eq!(rt; fault_of(&[1, 0]), fault(1, 42, 1, 1));
        assert_eq!(rt; fault_of(&[1, 0, 1]), fault(1, 42, 1, 1));
        assert_eq!(rt; fault_of(&[1, 0, 0]), fault(2, 43, 1, 1));
        assert_eq!(rt; fault_of(&[1, 0, 1, b'X']), fault(2, 43, 1, 1));
        assert_eq!(rt; fault_of(&[1, 0, 1, b'S']), fault(2, 44, 1, 1));
        assert_eq!(rt; fault_of(&[1, 0, 1, b'C']), fault(2, 45, 1, 1));
    }

    #[test]
    fn the_longest_file(rt: HostRuntime) {
        let mut file = [0u8; 65_537];
        file[0] = 1;
        assert_eq!(rt; fault_of(&file), fault(1, 40, 0, 0));
        assert_eq!(rt; fault_of(&file[0..65_536]), fault(2, 43, 1, 1));
    }

    // The fault of a file that has one record, a set-up; the prices are below 65,536.
    fn fault_of_set_up(days: u8, bands: u8, average: u16, lowest: u16) -> Option<Numbers> {
        let [a, b] = average.to_be_bytes();
        let [c, d] = lowest.to_be_bytes();
        fault_of(&[1, 0, 11, b'S', days, bands, 0, 0, a, b, 0, 0, c, d])
    }

    #[test]
    fn set_ups_in_the_order_of_their_checks(rt: HostRuntime) {
        assert_eq!(rt; fault_of_set_up(28, 6, 30_000, 30_000), None);
        assert_eq!(rt; fault_of_set_up(31, 4, 0, 0), None);
        assert_eq!(rt; fault_of_set_up(27, 5, 30_001, 30_002), fault(2, 46, 1, 1));
        assert_eq!(rt; fault_of_set_up(27, 6, 30_001, 30_002), fault(3, 1, 1, 1));
        assert_eq!(rt; fault_of_set_up(28, 6, 30_001, 30_002), fault(3, 2, 1, 1));
        assert_eq!(rt; fault_of_set_up(28, 6, 4_000, 4_001), fault(3, 3, 1, 1));
    }

    // A file of the version and a set-up of 28 days.
    const START: [u8; 14] = [1, 0, 11, b'S', 28, 6, 0, 0, 19, 136, 0, 0, 15, 160];

    // Adds a posting: account, day and therms, of which the accounts are below 256 and the therms below 65,536.
    fn add(file: &mut Vec<u8>, letter: u8, account: u8, day: u8, therms: u16) -> Result<(), Fail> {
        let [high, low] = therms.to_be_bytes();
        file.extend_from_slice(&[0, 10, letter, 0, 0, 0, account, day, 0, 0, high, low])?;
        Ok(())
    }

    // The fault of one record after a set-up and the enrolment of account 101.
    fn fault_of_third(rt: HostRuntime, third: &[u8]) -> Result<Option<Numbers>, Fail> {
        let mut file = Vec::new(rt.alloc());
        file.extend_from_slice(&START)?;
        file.extend_from_slice(&[0, 6, b'E', 0, 0, 0, 101, 0])?;
        file.extend_from_slice(third)?;
        Ok(fault_of(&file))
    }

    #[test]
    fn later_records(rt: HostRuntime) -> Result<(), Fail> {
        assert_eq!(rt; fault_of_third(rt, &[])?, None);
        assert_eq!(rt; fault_of_third(rt, &[0, 1, b'W'])?, fault(2, 44, 3, 22));
        assert_eq!(rt; fault_of_third(rt, &[0, 2, b'W'])?, fault(1, 42, 3, 22));
        assert_eq!(rt; fault_of_third(rt, &[0, 2, b'w', 1])?, fault(2, 43, 3, 22));
        assert_eq!(rt; fault_of_third(rt, &[0, 2, b'W', 29])?, fault(3, 17, 3, 22));
        assert_eq!(rt;
            fault_of_third(rt, &[0, 6, b'E', 0, 0, 0, 101, 0])?,
            fault(3, 14, 3, 22)
        );
        assert_eq!(rt;
            fault_of_third(rt, &[0, 6, b'E', 0, 0, 0, 0, 0])?,
            fault(3, 13, 3, 22)
        );
        assert_eq!(rt;
            fault_of_third(rt, &[0, 6, b'E', 0, 0, 1, 1, 51])?,
            fault(3, 15, 3, 22)
        );
        assert_eq!(rt;
            fault_of_third(rt, &[0, 10, b'R', 0, 0, 0, 9, 1, 0, 0, 0, 1])?,
            fault(3, 16, 3, 22)
        );
        assert_eq!(rt;
            fault_of_third(rt, &[0, 10, b'G', 0, 0, 0, 101, 1, 0, 0, 195, 81])?,
            fault(3, 18, 3, 22)
        );
        assert_eq!(rt;
            fault_of_third(rt, &[0, 11, b'S', 28, 6, 0, 0, 0, 0, 0, 0, 0, 0])?,
            fault(2, 45, 3, 22)
        );
        Ok(())
    }

    #[test]
    fn pools_without_a_member_and_with_one_too_many(rt: HostRuntime) -> Result<(), Fail> {
        let mut file = Vec::new(rt.alloc());
        file.extend_from_slice(&START)?;
        file.extend_from_slice(&[0, 1, b'C'])?;
        assert_eq!(rt; fault_of(&file), fault(3, 22, 2, 14));
        let mut file = Vec::new(rt.alloc());
        file.extend_from_slice(&START)?;
        for account in 1..42u8 {
            file.extend_from_slice(&[0, 6, b'E', 0, 0, 0, account, 50])?;
        }
        assert_eq!(rt; fault_of(&file), fault(3, 12, 42, 334));
        Ok(())
    }

    #[test]
    fn a_missing_read_has_its_member_and_day(rt: HostRuntime) -> Result<(), Fail> {
        let told = fault_of_third(rt, &[0, 1, b'C'])?;
        assert_eq!(rt;
            told,
            Some(Numbers {
                layer: 3,
                number: 23,
                nth: 3,
                byte: 22,
                member: 1,
                day: 1,
            })
        );
        Ok(())
    }

    // Two members, each with 1,000 therms nominated and read on day 1 and none later, and what is received on day 1.
    fn two_members(rt: HostRuntime) -> Result<Vec<u8>, Fail> {
        let mut file = Vec::new(rt.alloc());
        file.extend_from_slice(&START)?;
        file.extend_from_slice(&[0, 6, b'E', 0, 0, 0, 101, 0])?;
        file.extend_from_slice(&[0, 6, b'E', 0, 0, 0, 102, 0])?;
        for account in 101..103u8 {
            add(&mut file, b'N', account, 1, 1_000)?;
            add(&mut file, b'N', account, 2, 0)?;
            add(&mut file, b'R', account, 1, 1_000)?;
            for day in 2..29u8 {
                add(&mut file, b'R', account, day, 0)?;
            }
        }
        add(&mut file, b'G', 101, 1, 900)?;
        add(&mut file, b'G', 102, 1, 1_020)?;
        file.extend_from_slice(&[0, 1, b'C'])?;
        Ok(file)
    }

    #[test]
    fn a_whole_month_is_listed(rt: HostRuntime) -> Result<(), Fail> {
        let file = two_members(rt)?;
        let mut block = [7u8; BLOCK];
        let end = list_month(&file, &mut block);
        assert_eq!(rt; file.len(), 777);
        assert_eq!(rt; end, 29);
        assert!(rt; &block[0..29] == b"28 2\n101 5375\n102 -1225\n4150\n".as_slice());
        assert_eq!(rt; block[29], 7);
        Ok(())
    }

    #[test]
    fn a_closed_month_takes_no_record(rt: HostRuntime) -> Result<(), Fail> {
        let mut file = two_members(rt)?;
        file.extend_from_slice(&[0, 2, b'W', 1])?;
        assert_eq!(rt; fault_of(&file), fault(3, 11, 67, 777));
        Ok(())
    }

    #[test]
    fn a_file_that_ends_early(rt: HostRuntime) -> Result<(), Fail> {
        let file = two_members(rt)?;
        for end in 2..file.len() {
            assert!(rt; fault_of(&file[0..end]).is_none_or(|told| told.number == 42));
        }
        Ok(())
    }

    #[test]
    fn open_months_and_faults_are_listed(rt: HostRuntime) {
        let mut block = [7u8; BLOCK];
        let end = list_month(&START, &mut block);
        assert_eq!(rt; end, 5);
        assert!(rt; &block[0..5] == b"OPEN\n".as_slice());
        let end = list_month(&[1], &mut block);
        assert_eq!(rt; end, 19);
        assert!(rt; &block[0..19] == b"FAULT 2 45 1 1 0 0\n".as_slice());
    }
}
