// How a month file is divided: its version, and then records, each after its length in two bytes, the higher first.
ghost use Rattle.std.specs.Prelude.{◌≡◌, ◌+◌, ◌<◌, ◌≤◌, length, IfOk};
ghost use Rattle.month_format.specs.Files.{most_bytes, versioned};
ghost use Rattle.month_format.specs.Records.{cut_of, record_at};
ghost use Rattle.month_format.specs.Readings.{Reads};
ghost use Rattle.month_format.specs.Views.{said_by, seen, with_rest, lent};

use crate::errors::{BytesError, RecordError};
use crate::record::Record;

// The most bytes of a month file.
pub const MOST_BYTES: usize = 65_536;

// The first byte of a month file.
pub const VERSION: u8 = 1;

// What comes after the version of a file.
pub fn after_version<'a>(file: &'a [u8]) -> Result<&'a [u8], BytesError>
    ensures value { seen lent result ≡ versioned file.now }
    ensures shorter { IfOk result (λ rest. (length rest.now + 1 ≡ length file.now) × (length file.now ≤ most_bytes)) }
{
    if file.len() > MOST_BYTES {
        return Err(BytesError::TooLong);
    }
    match file {
        [VERSION, rest @ ..] => Ok(rest),
        _ => Err(BytesError::BadVersion),
    }
}

// The bytes of the first record, without its length, and what comes after it.
fn cut<'a>(bytes: &'a [u8]) -> Result<(&'a [u8], &'a [u8]), BytesError>
    ensures value { seen (with_rest lent) result ≡ cut_of bytes.now }
    ensures shorter { IfOk result (λ p. length p.1.now < length bytes.now) }
{
    let (len, rest) = bytes.split_first_chunk::<2>().ok_or(BytesError::CutShort)?;
    rest.split_at_checked(u16::from_be_bytes(*len).into())
        .ok_or(BytesError::CutShort)
}

// The first record, taken apart, and what comes after it. That less is left than there was is promised here and by what it
// is made of, so that whoever reads on comes to an end.
#[tactic(auto, using(crate::proofs::Framed::exactly_as))]
pub fn next_record<'a>(bytes: &'a [u8]) -> Result<(Record<'a>, &'a [u8]), RecordError>
    ensures value { seen (with_rest said_by) result ≡ record_at bytes.now }
    ensures exactly { Reads bytes.now (seen (with_rest said_by) result) }
    ensures shorter { IfOk result (λ p. length p.1.now < length bytes.now) }
{
    let (record, rest) = cut(bytes)?;
    let record = Record::try_from(record)?;
    Ok((record, rest))
}
