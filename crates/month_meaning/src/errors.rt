// Why reading a month file stops.
ghost use Rattle.std.specs.Prelude.{◌≡◌};
ghost use Rattle.month_format.specs.declared.errors.RecordError.TheVariants.{Bytes};
ghost use Rattle.month_meaning.specs.declared.errors.FileError.TheVariants.{InRecord, InLadder, InBook};
ghost use Rattle.month_meaning.specs.Errors.{layer_of, number_in, missing};

use agreement::Refusal;
use month_format::{BytesError, Layer, RecordError};
use tariff::Refusal as LadderRefusal;

// A read that is missing at the close: the member's place in enrolment order, from 1, and the day. These are the two fields of the
// book's refusal, read off it where a fault is told: a struct within the refusal would be a name more wherever it is made or met.
#[derive(Clone, Copy, PartialEq, Eq, Debug)]
pub struct MissingRead {
    pub member: u8,
    pub day: u8,
}

#[derive(Clone, Copy, PartialEq, Eq, Debug)]
pub enum FileError {
    // The bytes hold no whole record, or the record is none of the format's, or out of place.
    InRecord(RecordError),
    // The set-up's prices make no ladder.
    InLadder(LadderRefusal),
    // The book refuses the set-up's days or a call.
    InBook(Refusal),
}

impl FileError {
    // The layer that refuses: the bytes, the record or the book.
    pub fn layer(self) -> Layer
        ensures { result ≡ layer_of self }
    {
        match self {
            FileError::InRecord(error) => error.layer(),
            FileError::InLadder(LadderRefusal::BadBandCount) => Layer::Record,
            FileError::InLadder(_) | FileError::InBook(_) => Layer::Book,
        }
    }

    // By cases, since each of the three has numbers of its own.
    pub fn number(self) -> u8
        ensures { result ≡ number_in self }
    {
        match self {
            FileError::InRecord(error) => error.number(),
            FileError::InLadder(refusal) => refusal.number(),
            FileError::InBook(refusal) => refusal.number(),
        }
    }

    // The read that is missing, where that is why.
    pub fn missing_read(self) -> Option<MissingRead>
        ensures { result ≡ missing self }
    {
        match self {
            FileError::InBook(Refusal::ReadMissing { member, day }) => {
                Some(MissingRead { member, day })
            }
            _ => None,
        }
    }
}

// One impl for each error, since a derive's `From` states nothing of the error that it makes.
impl From<BytesError> for FileError {
    ghost from_gives = { λ e r. r ≡ InRecord (Bytes e) };

    fn from(why: BytesError) -> FileError {
        FileError::InRecord(why.into())
    }
}

impl From<RecordError> for FileError {
    ghost from_gives = { λ e r. r ≡ InRecord e };

    fn from(why: RecordError) -> FileError {
        FileError::InRecord(why)
    }
}

impl From<LadderRefusal> for FileError {
    ghost from_gives = { λ e r. r ≡ InLadder e };

    fn from(why: LadderRefusal) -> FileError {
        FileError::InLadder(why)
    }
}

impl From<Refusal> for FileError {
    ghost from_gives = { λ e r. r ≡ InBook e };

    fn from(why: Refusal) -> FileError {
        FileError::InBook(why)
    }
}
