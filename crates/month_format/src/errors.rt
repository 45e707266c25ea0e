// Why the bytes of a month file, or one of its records, are refused, and the number that each refusal goes by.
ghost use Rattle.std.specs.Prelude.{◌≡◌};
ghost use Rattle.month_format.specs.Numbers.{bytes_number, record_number, record_layer};
ghost use Rattle.month_format.specs.declared.errors.RecordError.TheVariants.{Bytes, WrongLength};

use crate::place::Layer;
use std::array::TryFromSliceError;

#[derive(Clone, Copy, PartialEq, Eq, Debug)]
pub enum BytesError {
    // The file is longer than a month file can be.
    TooLong = 40,
    // The file is empty, or its version is another.
    BadVersion = 41,
    // The file ends within a record.
    CutShort = 42,
}

#[derive(Clone, Copy, PartialEq, Eq, Debug)]
pub enum RecordError {
    // The bytes hold no whole record.
    Bytes(BytesError),
    // No record has this letter, or the record has no letter.
    UnknownLetter,
    // The record's letter has fields of another length.
    WrongLength,
    // The set-up is missing at the start, or comes again.
    MisplacedSetUp,
    // Neither six bands nor four: the record's refusal, since the book's, of the days, comes only after it.
    BadBandCount,
}

impl BytesError {
    pub fn number(self) -> u8
        ensures { result ≡ bytes_number self }
    {
        self as u8
    }
}

impl RecordError {
    // The layer that refuses: the bytes or the record.
    pub fn layer(self) -> Layer
        ensures { result ≡ record_layer self }
    {
        match self {
            RecordError::Bytes(_) => Layer::Bytes,
            _ => Layer::Record,
        }
    }

    // By cases, since a refusal with a field is no number.
    pub fn number(self) -> u8
        ensures { result ≡ record_number self }
    {
        match self {
            RecordError::Bytes(error) => error.number(),
            RecordError::UnknownLetter => 43,
            RecordError::WrongLength => 44,
            RecordError::MisplacedSetUp => 45,
            RecordError::BadBandCount => 46,
        }
    }
}

// By hand, since a derive's `From` states nothing of the error that it makes.
impl From<BytesError> for RecordError {
    ghost from_gives = { λ e r. r ≡ Bytes e };

    fn from(bytes: BytesError) -> RecordError {
        RecordError::Bytes(bytes)
    }
}

// A field of four bytes has another length; by hand, as the one above.
impl From<TryFromSliceError> for RecordError {
    ghost from_gives = { λ _ r. r ≡ WrongLength };

    fn from(_other: TryFromSliceError) -> RecordError {
        RecordError::WrongLength
    }
}
