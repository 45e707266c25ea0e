// The listing of a month, written into a block of the caller's.
ghost use Rattle.std.specs.Prelude.{◌≡◌, ◌+◌, ◌*◌, ◌≤◌, length};
ghost use Rattle.std.specs.List.{flat_map};
ghost use Rattle.listing.specs.Block.{written};
ghost use Rattle.listing.specs.Listing.{bill_line, numbers_line, closed_listing, listing_text};
ghost use Rattle.listing.specs.Sheets.{HasRoom, Adds};
ghost use Rattle.listing.specs.Words.{most_line};

use crate::sheet::{BLOCK, Sheet, Word};
use agreement::{Bill, MOST_MEMBERS};
use month_meaning::Fault;

// What there is to print of a month: the bills of a closed one and the total cents, that it is open, or the fault of its file:
// a fault that there is, or six numbers of the caller's that are told as one.
#[derive(Clone, Copy, PartialEq, Eq, Debug)]
pub enum Listing<'a> {
    Closed {
        days: u8,
        bills: &'a [Bill],
        total: i64,
    },
    Open,
    Fault(Fault),
    // Layer, number, record, byte, member and day, for who has numbers and no fault of a file.
    FaultNumbers([u32; 6]),
}

impl Sheet<'_> {
    fn bill(&mut self, bill: &Bill)
        requires { HasRoom self.old (most_line 2) }
        ensures adds { Adds self.old (bill_line bill.now) self.new }
        ensures short { self.new.end ≤ self.old.end + most_line 2 }
    {
        self.line(&[Word::Number(bill.account.into()), Word::Amount(bill.cents)]);
    }

    fn bills(&mut self, bills: &[Bill])
        requires { HasRoom self.old (most_line 2 * length bills.now) }
        ensures adds { Adds self.old (flat_map bill_line bills.now) self.new }
        ensures short { self.new.end ≤ self.old.end + most_line 2 * length bills.now }
    {
        for bill in bills {
            self.bill(bill);
        }
    }

    fn closed(&mut self, days: u8, bills: &[Bill], total: i64)
        requires { HasRoom self.old (most_line 2 * (length bills.now + 1) + most_line 1) }
        ensures { Adds self.old (closed_listing days bills.now total) self.new }
    {
        self.line(&[Word::Number(days.into()), Word::Number(bills.len() as u64)]);
        self.bills(bills);
        self.line(&[Word::Amount(total)]);
    }

    fn fault(&mut self, numbers: &[u32; 6])
        requires { HasRoom self.old (most_line 7) }
        ensures { Adds self.old (numbers_line numbers.now) self.new }
    {
        let [layer, number, nth, byte, member, day] = *numbers;
        self.line(&[
            Word::Fault,
            Word::Number(layer.into()),
            Word::Number(number.into()),
            Word::Number(nth.into()),
            Word::Number(byte.into()),
            Word::Number(member.into()),
            Word::Number(day.into()),
        ]);
    }

    // The bills are in the order of the slice; of more than a full pool has, the first ones are listed.
    fn listing(&mut self, listing: &Listing)
        requires { self.old.end ≡ 0 }
        ensures { Adds self.old (listing_text listing.now) self.new }
    {
        match *listing {
            Listing::Closed { days, bills, total } => {
                let listed = &bills[..MOST_MEMBERS.min(bills.len())];
                self.closed(days, listed, total);
            }
            Listing::Open => self.line(&[Word::Open]),
            Listing::Fault(fault) => self.fault(&fault.numbers()),
            Listing::FaultNumbers(numbers) => self.fault(&numbers),
        }
    }
}

impl Listing<'_> {
    // Writes the listing at the start of the block, and answers its length; the rest of the block keeps its content. The answer is
    // no slice of what was written, since the block is the caller's, of fixed size, and stays free to be written again.
    #[tactic(auto, using(crate::proofs::Adding::adds_written, crate::proofs::Adding::adds_within))]
    pub fn write(&self, block: &mut [u8; BLOCK]) -> usize
        ensures block { block.new ≡ written 0 (listing_text self.now) block.old }
        ensures end { result ≡ length (listing_text self.now) }
        ensures fits { result ≤ 2048 }
        ensures whole { length block.new ≡ 2048 }
    {
        let mut sheet = Sheet::new(block);
        sheet.listing(self);
        sheet.end()
    }
}
