// The calls of a keeping.
ghost use Rattle.std.specs.Prelude.{◌≡◌, ◌≤◌, [], length, IfOk, IfErr};
ghost use Rattle.rules.specs.Checks.{unless};
ghost use Rattle.billing.specs.Order.{Rising};
ghost use Rattle.billing.specs.Places.{AllAbove, IsAt, IsGapFor};
ghost use Rattle.billing.specs.Keepings.{kept, lent, room, found, add_refusal, after_adding, after_change, change_refusal, Leaves};

use crate::keeping::{Keeping, Numbered};
use crate::refusals::Refusal;

impl<'a, R: Numbered> Keeping<'a, R> {
    // An empty keeping over the memory lent, which stays as it is.
    pub fn new(slots: &'a mut [R]) -> Keeping<'a, R>
        ensures empty { kept result ≡ [] }
        ensures memory { lent result ≡ slots.old }
        ensures lender { result.slots.ghost_name ≡ slots.entry.ghost_name }
    {
        Keeping { slots, len: 0 }
    }

    // The records kept, in rising order of number.
    pub fn records(&self) -> &[R]
        ensures all { result.now ≡ kept self.now }
        ensures rises { Rising R.numbered result.now }
    {
        &self.slots[..self.len]
    }

    // How many of the first records to search for a number: twice as many each time, until the last of them is not below it. So
    // a low number is found in few steps, however many records are kept.
    fn front(&self, number: u32) -> usize
        ensures within { result ≤ length (kept self.now) }
        ensures reaches { AllAbove R.numbered number result (kept self.now) }
    {
        let records = self.records();
        let mut end: usize = 1;
        while end < records.len() && records[end - 1].number() < number {
            end = end.saturating_mul(2);
        }
        end.min(records.len())
    }

    // The place of the record with this number, or else the one that a record with it would have.
    fn search(&self, number: u32) -> Result<usize, usize>
        ensures found { IfOk result (IsAt R.numbered number (kept self.now)) }
        ensures absent { IfErr result (IsGapFor R.numbered number (kept self.now)) }
    {
        self.records()[..self.front(number)].binary_search_by_key(&number, |record| record.number())
    }

    // The record with this number. A gap is turned into the refusal here and in `change`: a method that does it for both
    // would be longer than the two.
    pub fn find(&self, number: u32) -> Result<R, Refusal>
        ensures { result ≡ found R.numbered number (kept self.now) }
    {
        match self.search(number) {
            Ok(place) => Ok(self.slots[place]),
            Err(_) => Err(Refusal::NoSuchNumber),
        }
    }

    // Adds a record in the order of numbers; those above it move up by one.
    pub fn add(&mut self, newcomer: R) -> Result<(), Refusal>
        ensures answer { result ≡ unless (add_refusal R.numbered (room self.old) newcomer (kept self.old)) tt }
        ensures leaves { Leaves self.old self.new (after_adding R.numbered (room self.old) newcomer (kept self.old)) }
    {
        let Err(place) = self.search(newcomer.number()) else {
            return Err(Refusal::NumberInUse);
        };
        let len = self.len;
        if len == self.slots.len() {
            return Err(Refusal::KeepingFull);
        }
        self.slots[len] = newcomer;
        self.slots[place..=len].rotate_right(1);
        self.len = len + 1;
        Ok(())
    }

    // Puts a record in the place of the one that has its number.
    pub fn change(&mut self, changed: R) -> Result<(), Refusal>
        ensures answer { result ≡ unless (change_refusal R.numbered changed (kept self.old)) tt }
        ensures leaves { Leaves self.old self.new (after_change R.numbered changed (kept self.old)) }
    {
        let Ok(place) = self.search(changed.number()) else {
            return Err(Refusal::NoSuchNumber);
        };
        self.slots[place] = changed;
        Ok(())
    }
}
