// Reads a month file, record by record, and tells where it stopped.
ghost use Rattle.std.specs.Prelude.{◌≡◌, Some, None};
ghost use Rattle.month_format.specs.Views.{seen};
ghost use Rattle.month_meaning.specs.Accepted.{Reads};
ghost use Rattle.month_meaning.specs.Bills.{Fair};
ghost use Rattle.month_meaning.specs.Reading.{reading, kept};
ghost use Rattle.month_file.specs.Left.{read_left, read_after};
ghost use Rattle.month_file.specs.Views.{month_of, held_by};

use crate::book::MonthBook;
use crate::posting::{open, post};
use crate::records::Records;
use month_format::RecordError;
use month_meaning::{Fault, FileError};

// The book that the first record sets up; at the end of the file none does.
fn read_set_up(records: &mut Records) -> Result<MonthBook, Fault>
    ensures { read_left None records.old ≡ read_after (seen month_of result) records.new }
{
    let end = (records.place(), Err(RecordError::MisplacedSetUp));
    let (place, first) = records.next().unwrap_or(end);
    open(first).map_err(|error| error.at(place))
}

// Posts the records that are left.
#[tactic(auto, using(crate::proofs::Turns::turn_end))]
fn read_calls(book: &mut MonthBook, records: Records) -> Result<(), Fault>
    ensures book { Some (month_of book.new) ≡ (read_left (Some (month_of book.old)) records.entry).0 }
    ensures answer { result ≡ (read_left (Some (month_of book.old)) records.entry).1 }
{
    for (place, record) in records {
        post(book, record).map_err(|error| error.at(place))?;
    }
    Ok(())
}

// Reads a month into the caller's book. Reading stops at the first fault, and the records before it stand: the book
// that the caller had is kept until a set-up is accepted.
#[tactic(auto, using(crate::proofs::Fairly::fair_held, crate::proofs::Turns::read_all, month_meaning::proofs::Exactly::exactly_as))]
pub fn read_month(book: &mut Option<MonthBook>, file: &[u8]) -> Result<(), Fault>
    ensures book { held_by book.new ≡ kept (reading file.now).0 (held_by book.old) }
    ensures answer { result ≡ (reading file.now).1 }
    ensures exactly { Reads file.now (held_by book.old) (held_by book.new) result }
    ensures fair { Fair (held_by book.new) }
{
    let mut records = Records::of(file).map_err(|error| FileError::from(error).unplaced())?;
    let mut month = read_set_up(&mut records)?;
    let answer = read_calls(&mut month, records);
    *book = Some(month);
    answer
}
