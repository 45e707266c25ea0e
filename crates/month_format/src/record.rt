// A record of a month file: a letter, and fields that stay where they lie in the file.
ghost use Rattle.std.specs.Prelude.{◌≡◌};
ghost use Rattle.month_format.specs.Fields.{quad_at};
ghost use Rattle.month_format.specs.Records.{record_of, set_up_of, enrol_of, posting_of, notify_of, close_of};
ghost use Rattle.month_format.specs.Views.{said_by, posting_said, seen, call_of};

use crate::errors::RecordError;
use agreement::Call;

// The fields of a posting: an account, a day and therms.
#[derive(Clone, Copy, PartialEq, Eq, Debug)]
pub struct Posting<'a> {
    pub account: &'a [u8; 4],
    pub day: &'a u8,
    pub therms: &'a [u8; 4],
}

#[derive(Clone, Copy, PartialEq, Eq, Debug)]
pub enum Record<'a> {
    SetUp {
        days: &'a u8,
        bands: &'a u8,
        average: &'a [u8; 4],
        lowest: &'a [u8; 4],
    },
    Enrol {
        account: &'a [u8; 4],
        retention: &'a u8,
    },
    // A nomination from a day on.
    Nominate(Posting<'a>),
    // What a member used on a day.
    Read(Posting<'a>),
    // What was received for a member on a day.
    Receive(Posting<'a>),
    Notify {
        day: &'a u8,
    },
    Close,
}

// The number in a field of four bytes, the highest first: a function, so that the order of the bytes stands once and not at each
// of the five fields.
pub fn value(field: &[u8; 4]) -> u32
    ensures { result ≡ quad_at field.now 0 }
{
    u32::from_be_bytes(*field)
}

// Days, bands, average price and lowest price. One pattern says the two single bytes and the rest, where `split_first`
// would be asked twice.
fn set_up<'a>(fields: &'a [u8]) -> Result<Record<'a>, RecordError>
    ensures { seen said_by result ≡ set_up_of fields.now }
{
    let [days, bands, prices @ ..] = fields else {
        return Err(RecordError::WrongLength);
    };
    let (average, lowest) = prices
        .split_first_chunk::<4>()
        .ok_or(RecordError::WrongLength)?;
    Ok(Record::SetUp {
        days,
        bands,
        average,
        lowest: lowest.try_into()?,
    })
}

// Account and retention, which is the last byte.
fn enrolment<'a>(fields: &'a [u8]) -> Result<Record<'a>, RecordError>
    ensures { seen said_by result ≡ enrol_of fields.now }
{
    let (retention, account) = fields.split_last().ok_or(RecordError::WrongLength)?;
    Ok(Record::Enrol {
        account: account.try_into()?,
        retention,
    })
}

// A day.
fn notice<'a>(fields: &'a [u8]) -> Result<Record<'a>, RecordError>
    ensures { seen said_by result ≡ notify_of fields.now }
{
    match fields {
        [day] => Ok(Record::Notify { day }),
        _ => Err(RecordError::WrongLength),
    }
}

// No field.
fn closing<'a>(fields: &'a [u8]) -> Result<Record<'a>, RecordError>
    ensures { seen said_by result ≡ close_of fields.now }
{
    match fields {
        [] => Ok(Record::Close),
        _ => Err(RecordError::WrongLength),
    }
}

// The fields of a posting, taken apart.
impl<'a> TryFrom<&'a [u8]> for Posting<'a> {
    type Error = RecordError;

    ghost try_from_gives = { λ fields answer. seen posting_said answer ≡ posting_of fields.now };

    fn try_from(fields: &'a [u8]) -> Result<Posting<'a>, RecordError> {
        let (account, rest) = fields
            .split_first_chunk::<4>()
            .ok_or(RecordError::WrongLength)?;
        let (day, therms) = rest.split_first().ok_or(RecordError::WrongLength)?;
        Ok(Posting {
            account,
            day,
            therms: therms.try_into()?,
        })
    }
}

impl<'a> From<Posting<'a>> for agreement::Posting {
    ghost from_gives = { λ fields posting. posting ≡ posting_said fields };

    fn from(fields: Posting<'a>) -> agreement::Posting {
        agreement::Posting {
            account: value(fields.account),
            day: *fields.day,
            therms: value(fields.therms),
        }
    }
}

// The bytes of a record, taken apart: the letter decides how the rest divides.
impl<'a> TryFrom<&'a [u8]> for Record<'a> {
    type Error = RecordError;

    ghost try_from_gives = { λ bytes answer. seen said_by answer ≡ record_of bytes.now };

    fn try_from(bytes: &'a [u8]) -> Result<Record<'a>, RecordError> {
        let (letter, fields) = bytes.split_first().ok_or(RecordError::UnknownLetter)?;
        match *letter as char {
            'S' => set_up(fields),
            'E' => enrolment(fields),
            'N' => Posting::try_from(fields).map(Record::Nominate),
            'R' => Posting::try_from(fields).map(Record::Read),
            'G' => Posting::try_from(fields).map(Record::Receive),
            'W' => notice(fields),
            'C' => closing(fields),
            _ => Err(RecordError::UnknownLetter),
        }
    }
}

impl<'a> Record<'a> {
    // The call that the record makes; a set-up makes none.
    pub fn call(&self) -> Option<Call>
        ensures { result ≡ call_of (said_by self.now) }
    {
        match self {
            Record::SetUp { .. } => None,
            Record::Enrol { account, retention } => Some(Call::Enrol {
                account: value(account),
                retention: **retention,
            }),
            Record::Nominate(posting) => Some(Call::Nominate((*posting).into())),
            Record::Read(posting) => Some(Call::Read((*posting).into())),
            Record::Receive(posting) => Some(Call::Receive((*posting).into())),
            Record::Notify { day } => Some(Call::Notify { day: **day }),
            Record::Close => Some(Call::Close),
        }
    }
}
