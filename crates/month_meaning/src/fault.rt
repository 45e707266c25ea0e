// The fault that is told of a month file, and its six numbers.
ghost use Rattle.std.specs.Prelude.{◌≡◌};
ghost use Rattle.month_meaning.specs.Errors.{layer_of, number_in};
ghost use Rattle.month_meaning.specs.Faults.{fault, unplaced, nth_in, byte_in, member_in, day_in, numbers};

use crate::errors::FileError;
use month_format::{Layer, Place};

// Why reading stopped, and the record where it did; no record where the file was refused before its first.
#[derive(Clone, Copy, PartialEq, Eq, Debug)]
pub struct Fault {
    pub why: FileError,
    pub place: Option<Place>,
}

impl FileError {
    // The fault where reading stops in the record at a place.
    pub fn at(self, place: Place) -> Fault
        ensures { result ≡ fault self place }
    {
        Fault {
            why: self,
            place: Some(place),
        }
    }

    // The fault where reading stops before the first record.
    pub fn unplaced(self) -> Fault
        ensures { result ≡ unplaced self }
    {
        Fault {
            why: self,
            place: None,
        }
    }
}

impl Fault {
    // The layer that refuses.
    pub fn layer(self) -> Layer
        ensures { result ≡ layer_of self.why }
    {
        self.why.layer()
    }

    // The number of the refusal.
    pub fn number(self) -> u8
        ensures { result ≡ number_in self.why }
    {
        self.why.number()
    }

    // This method and the three below differ in the field alone: a default place and a default read, for all four at once, would be
    // record 0 and member 0, which no file and no pool has.
    // The record, counted from 1; 0 where none was reached.
    pub fn nth(self) -> u32
        ensures { result ≡ nth_in self }
    {
        self.place.map_or(0, |place| place.nth)
    }

    // The byte where that record's length starts; 0 where none was reached.
    pub fn byte(self) -> u32
        ensures { result ≡ byte_in self }
    {
        self.place.map_or(0, |place| place.byte)
    }

    // The member of a missing read; 0 where no read is missing.
    pub fn member(self) -> u8
        ensures { result ≡ member_in self }
    {
        self.why.missing_read().map_or(0, |read| read.member)
    }

    // The day of a missing read; 0 where no read is missing.
    pub fn day(self) -> u8
        ensures { result ≡ day_in self }
    {
        self.why.missing_read().map_or(0, |read| read.day)
    }

    // The six numbers, as they are told: layer, number, record, byte, member and day.
    pub fn numbers(self) -> [u32; 6]
        ensures { result ≡ numbers self }
    {
        [
            self.layer().number().into(),
            self.number().into(),
            self.nth(),
            self.byte(),
            self.member().into(),
            self.day().into(),
        ]
    }
}
